// The nodes that a settling takes, and their times.
ghost use Rattle.std.specs.Prelude.{◌≡◌, ℕ, ◌<◌, ◌≤◌, length};
ghost use Rattle.sets.specs.Sets.{Marks};
ghost use Rattle.sets.specs.Tests.{Says};
ghost use Rattle.table.specs.declared.records.Region.TheVariants.{Branch};
ghost use Rattle.workload.specs.Measures.{total as total_time};
ghost use Rattle.workload.specs.Nested.{Nested};
ghost use Rattle.workload.specs.Worst.{pick_of, LeadsInto, TakenNode};

use crate::settlement::Picks;
use sets::bit_set::BitSet;
use table::records::{Node, Region};

// Whether the picks lead into a region, where its home is marked if it is taken.
fn leads_into(region: Region, picks: &Picks, taken: BitSet) -> bool
    requires { (h b : ℕ) → region ≡ Branch h b → h < 64 }
    ensures { Says result (LeadsInto (pick_of picks.now) taken region) }
{
    match region {
        Region::Top => true,
        Region::Branch { home, branch } => taken.has(usize::from(home))
            && picks[usize::from(home)] == branch,
    }
}

// The nodes that the picks take.
pub(crate) fn taken(nodes: &[Node], picks: &Picks) -> BitSet
    requires { Nested nodes.now }
    ensures { Marks (TakenNode nodes.now (pick_of picks.now)) result }
{
    // a plain loop: whether a node is taken depends on those taken so far
    let mut taken = BitSet::EMPTY;
    for (v, node) in nodes.iter().enumerate() {
        if leads_into(node.region, picks, taken) {
            taken = taken.with(v);
        }
    }
    taken
}

// The sum of the times of the nodes that are taken.
pub(crate) fn total_of(nodes: &[Node], taken: BitSet) -> u64
    requires { length nodes.now ≤ 64 }
    ensures { (pick : ℕ → ℕ) → Marks (TakenNode nodes.now pick) taken → result ≡ total_time nodes.now pick }
{
    // a plain sum: the loop keeps its bound, which a chain would ask of callers
    let mut total = 0;
    for (number, node) in nodes.iter().enumerate() {
        if taken.has(number) {
            total += u64::from(node.time);
        }
    }
    total
}
