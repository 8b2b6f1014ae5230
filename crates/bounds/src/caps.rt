// The caps that an order answers, kept between the steps.
ghost use Rattle.std.specs.Prelude.{◌≡◌, ◌≢◌, Some};
ghost use Rattle.bounds.specs.declared.plan.Demand.{Demand};
ghost use Rattle.bounds.specs.Equation.{held, party_of, bound};
ghost use Rattle.bounds.specs.Steps.{CapsOf, Current};

use crate::plan::Plan;
use order::{Order, Slot};

// The caps on the jobs of one slot ahead of a job of each slot.
pub(crate) type CapRow = [Option<u64>; 16];

// A row for each slot.
pub(crate) type CapTable = [CapRow; 16];

// The cap on the jobs of slot i ahead of a job of slot k, from the bound of slot i: 0 where they are not two tasks.
fn cap_ahead<O: Order>(order: &O, plan: &Plan, i: Slot, bound: u32, k: Slot) -> Option<u64>
    ensures { (e d : Demand) → (i.number ≢ k.number) → held plan.now i.number ≡ Some e → held plan.now k.number ≡ Some d → result ≡ (O.Order.means order.now).most (party_of i.number e) (party_of k.number d) bound }
{
    match (plan.held(i), plan.held(k)) {
        (Some(e), Some(d)) if i != k => order.cap(e.party(i), d.party(k), bound),
        _ => Some(0),
    }
}

// The caps on the jobs of slot i, from its bound.
pub(crate) fn caps_of<O: Order>(order: &O, plan: &Plan, i: Slot, bound: u32) -> CapRow
    ensures { CapsOf (O.Order.means order.now).most plan.now i.number bound result }
{
    Slot::map_all(|k| cap_ahead(order, plan, i, bound, k))
}

// The caps at these bounds.
pub(crate) fn all_caps<O: Order>(order: &O, plan: &Plan, bounds: &[u32; 16]) -> CapTable
    ensures { Current (O.Order.means order.now).most plan.now bounds.now result }
{
    Slot::map_all(
        |i: Slot| -> CapRow
            ensures { CapsOf (O.Order.means order.entry.now).most plan.entry.now i.number (bound bounds.entry.now i.number) result }
        { caps_of(order, plan, i, bounds[i.index()]) },
    )
}
