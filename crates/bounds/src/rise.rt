// The least bounds, by raising one bound at a time.
ghost use Rattle.std.specs.Prelude.{◌≡◌, [], slice_index_or, slice_set};
ghost use Rattle.bounds.specs.Equation.{first_bounds_of, Told};
ghost use Rattle.bounds.specs.Steps.{kept, Moves, Current, Reopened};

use crate::caps::{CapTable, all_caps, caps_of};
use crate::plan::Plan;
use order::{Order, Slot};
use sets::bit_set::BitSet;

// A slot whose bound passes its deadline.
#[derive(Clone, Copy, Debug, PartialEq, Eq, Drop)]
pub struct Passed {
    pub slot: usize,
}

// A plan's bounds on their way up, and the caps at these bounds.
// The plan is a copy: a struct with a reference beside an array of arrays has no proof made for it.
#[derive(Drop)]
pub(crate) struct Rise {
    pub(crate) plan: Plan,
    pub(crate) bounds: [u32; 16],
    pub(crate) caps: CapTable,
}

// 1 for each task, 0 for each empty slot.
fn first_bounds(plan: &Plan) -> [u32; 16]
    ensures { result ≡ first_bounds_of plan.now }
{
    plan.slots.map(|task| u32::from(task.is_some()))
}

impl Rise {
    fn new<O: Order>(order: &O, plan: &Plan) -> Self
        ensures plan { result.plan ≡ plan.now }
        ensures bounds { result.bounds ≡ first_bounds_of plan.now }
        ensures caps { Current (O.Order.means order.now).most plan.now result.bounds result.caps }
    {
        let bounds = first_bounds(plan);
        Rise {
            plan: *plan,
            bounds,
            caps: all_caps(order, plan, &bounds),
        }
    }

    // Where the bound of slot k rises to, if it does.
    fn next_bound(&self, k: Slot) -> Result<Option<u32>, Passed>
        ensures { Moves (kept self.now.caps k.number) self.now.plan self.now.bounds k.number result }
    {
        let Some(d) = self.plan.held(k) else {
            return Ok(None);
        };
        let side = self.right_side(k, d);
        if side > u64::from(d.deadline) {
            return Err(Passed { slot: k.index() });
        }
        if side <= self.bound(k) {
            return Ok(None);
        }
        Ok(Some(side as u32))
    }

    // Raises the bound of slot k.
    fn raise<O: Order>(&mut self, order: &O, k: Slot, bound: u32)
        ensures plan { self.new.plan ≡ self.old.plan }
        ensures bounds { self.new.bounds ≡ slice_set self.old.bounds k.number bound }
        ensures caps { Current (O.Order.means order.now).most self.old.plan self.old.bounds self.old.caps → Current (O.Order.means order.now).most self.old.plan self.new.bounds self.new.caps }
    {
        self.caps[k.index()] = caps_of(order, &self.plan, k, bound);
        self.bounds[k.index()] = bound;
    }

    // The slots to look at again after slot k rose: these, and those that its jobs may go ahead of.
    fn reopened(&self, before: BitSet, k: Slot) -> BitSet
        ensures { Reopened before (slice_index_or self.now.caps k.number []) result }
    {
        let row = &self.caps[k.index()];
        before.union(BitSet::select(16, |j| row[j] != Some(0)))
    }
}

// The least bounds that meet the equation and every deadline, if there are any.
pub fn least_bounds<O: Order>(order: &O, plan: &Plan) -> Result<[u32; 16], Passed>
    ensures { Told (O.Order.means order.now).most plan.now result }
{
    let mut rise = Rise::new(order, plan);
    // the slots whose right side may be above their bound; it grows while it is worked off, so this is no walk over a set
    let mut pending = plan.tasks();
    while let Some(k) = pending.least() {
        let slot = Slot::at(k);
        match rise.next_bound(slot)? {
            None => pending = pending.without(k),
            Some(bound) => {
                rise.raise(order, slot, bound);
                pending = rise.reopened(pending, slot);
            }
        }
    }
    Ok(rise.bounds)
}
