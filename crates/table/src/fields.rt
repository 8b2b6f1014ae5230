// What the fields of a record say, or the first that is out of range.
ghost use Rattle.std.specs.Prelude.{◌≡◌, true, false, length, Ok, Err};
ghost use Rattle.table.specs.declared.records.Kind.TheVariants.{OfTask, OfNode, OfArc};
ghost use Rattle.table.specs.Fields.{four_told, Misfits};
ghost use Rattle.table.specs.Format.{four_bytes, task_fields, node_fields, arc_fields};
ghost use Rattle.table.specs.Range.{TaskInRange, NodeInRange, ArcInRange};
ghost use Rattle.table.specs.Steps.{RoleTold, RoleMisfits, RegionTold, RegionMisfits};

use crate::fault::{Field, Misfit};
use crate::records::{Arc, Node, Region, Role, Timing};

// In the place of a node's number: none.
const NO_NODE: u8 = 255;

impl Field {
    // The misfit of this value, unless it fits.
    pub(crate) fn check(self, value: u32, fits: bool) -> Result<(), Misfit>
        ensures { elim result [ Ok _ ↦ fits ≡ true | Err m ↦ (fits ≡ false) × (m ≡ record { field = self; value = value }) ] }
    {
        if fits {
            Ok(())
        } else {
            Err(Misfit { field: self, value })
        }
    }
}

// The number in four bytes, the lowest first.
pub(crate) fn number_in(bytes: [u8; 4]) -> u32
    ensures sum { result ≡ four_told bytes 0 }
    ensures bytes { four_bytes result ≡ bytes }
{
    u32::from_le_bytes(bytes)
}

pub(crate) fn role_in(role: u8, mate: u8, own: usize) -> Result<Role, Misfit>
    ensures { elim result [ Ok x ↦ RoleTold own role mate x | Err m ↦ RoleMisfits own role mate m ] }
{
    match role {
        0 if mate == NO_NODE => Ok(Role::Plain),
        1 if mate == NO_NODE => Ok(Role::Opening),
        2 if usize::from(mate) < own => Ok(Role::Closing { mate }),
        0..=2 => Err(Misfit {
            field: Field::Mate,
            value: mate.into(),
        }),
        _ => Err(Misfit {
            field: Field::Role,
            value: role.into(),
        }),
    }
}

pub(crate) fn region_in(home: u8, branch: u8, own: usize) -> Result<Region, Misfit>
    ensures { elim result [ Ok x ↦ RegionTold own home branch x | Err m ↦ RegionMisfits own home branch m ] }
{
    let top = home == NO_NODE;
    Field::Home.check(home.into(), top || usize::from(home) < own)?;
    Field::Branch.check(branch.into(), branch <= 7 && (!top || branch == 0))?;
    Ok(if top {
        Region::Top
    } else {
        Region::Branch { home, branch }
    })
}

pub(crate) fn timing_in(fields: &[u8]) -> Result<Timing, Misfit>
    requires { length fields.now ≡ 8 }
    ensures { elim result [ Ok t ↦ (fields.now ≡ task_fields t) × TaskInRange t | Err m ↦ Misfits 0 OfTask fields.now m ] }
{
    let &[a, b, c, d, e, f, g, h] = fields else {
        unreachable()
    };
    let period = number_in([a, b, c, d]);
    Field::Period.check(period, (1..=1_000_000).contains(&period))?;
    let deadline = number_in([e, f, g, h]);
    Field::Deadline.check(deadline, (1..=period).contains(&deadline))?;
    Ok(Timing { period, deadline })
}

pub(crate) fn node_in(fields: &[u8], own: usize) -> Result<Node, Misfit>
    requires { length fields.now ≡ 8 }
    ensures { elim result [ Ok n ↦ (fields.now ≡ node_fields n) × NodeInRange own n | Err m ↦ Misfits own OfNode fields.now m ] }
{
    let &[role, home, branch, mate, a, b, c, d] = fields else {
        unreachable()
    };
    let role = role_in(role, mate, own)?;
    let region = region_in(home, branch, own)?;
    let time = number_in([a, b, c, d]);
    Field::Time.check(time, (1..=65535).contains(&time))?;
    Ok(Node { role, region, time })
}

pub(crate) fn arc_in(fields: &[u8], nodes: usize) -> Result<Arc, Misfit>
    requires { length fields.now ≡ 2 }
    ensures { elim result [ Ok a ↦ (fields.now ≡ arc_fields a) × ArcInRange nodes a | Err m ↦ Misfits nodes OfArc fields.now m ] }
{
    let &[from, to] = fields else { unreachable() };
    Field::To.check(to.into(), usize::from(to) < nodes)?;
    Field::From.check(from.into(), from < to)?;
    Ok(Arc { from, to })
}
