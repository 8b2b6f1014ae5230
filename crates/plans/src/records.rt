// The records of a table, as bytes.
ghost use Rattle.std.specs.Prelude.{◌≡◌};
ghost use Rattle.table.specs.Format.{task as task_record, node as node_record, arc as arc_record, role_byte, mate_byte, home_byte, branch_byte, encode};

use table::records::{Arc, Node, Region, Role, Timing};

// What stands for no home and for no mate.
const NONE: u8 = 255;

// The byte of a role, and that of its mate: a pair that is taken apart at once.
fn role_bytes(role: Role) -> (u8, u8)
    ensures { (result.0 ≡ role_byte role) × (result.1 ≡ mate_byte role) }
{
    match role {
        Role::Plain => (0, NONE),
        Role::Opening => (1, NONE),
        Role::Closing { mate } => (2, mate),
    }
}

// The byte of the home, and that of the branch.
fn region_bytes(region: Region) -> (u8, u8)
    ensures { (result.0 ≡ home_byte region) × (result.1 ≡ branch_byte region) }
{
    match region {
        Region::Top => (NONE, 0),
        Region::Branch { home, branch } => (home, branch),
    }
}

pub(crate) fn task_bytes(timing: Timing) -> [u8; 12]
    ensures { result ≡ encode (task_record timing) }
{
    let [a, b, c, d] = timing.period.to_le_bytes();
    let [e, f, g, h] = timing.deadline.to_le_bytes();
    [12, 0, 1, 0, a, b, c, d, e, f, g, h]
}

pub(crate) fn node_bytes(node: Node) -> [u8; 12]
    ensures { result ≡ encode (node_record node) }
{
    let (role, mate) = role_bytes(node.role);
    let (home, branch) = region_bytes(node.region);
    let [a, b, c, d] = node.time.to_le_bytes();
    [12, 0, 2, 0, role, home, branch, mate, a, b, c, d]
}

pub(crate) fn arc_bytes(arc: Arc) -> [u8; 6]
    ensures { result ≡ encode (arc_record arc) }
{
    [6, 0, 3, 0, arc.from, arc.to]
}
