// Which ready node gets which core in a tick.
ghost use Rattle.std.specs.Prelude.{ℕ, ◌<◌, ◌≤◌, Some, None, MatchOption};
ghost use Rattle.sets.specs.Sets.{Has, Least, Marks};
ghost use Rattle.dispatch.specs.Placing.{Next, NoneMay, Placed};
ghost use Rattle.dispatch.specs.Search.{RowHas, HasWaiting, NoneAhead, FirstAhead};
ghost use Rattle.dispatch.specs.Tables.{row, ReadyIn, KeptIn, AheadIn, Places};

use crate::board::{Board, open_in};
use crate::job::Job;
use crate::spot::{Placing, Spot};
use sets::bit_set::BitSet;
use task::Task;

// What is in both tables, slot by slot.
fn common_rows(left: &[BitSet; 16], kept: &[BitSet; 16]) -> [BitSet; 16]
    ensures { (s : ℕ) → s < 16 → Marks (λ n. Has (row left.now s) n × Has (row kept.now s) n) (row result s) }
{
    std::array::from_fn(|slot| left[slot].common(kept[slot]))
}

// The slots in which a node waits.
fn waiting_slots(left: &[BitSet; 16]) -> BitSet
    ensures { Marks (HasWaiting left.now) result }
{
    BitSet::select(16, |slot| left[slot].least().is_some())
}

// The least of a slot's nodes.
fn least_node(nodes: BitSet) -> Option<u8>
    ensures { elim result [ Some n ↦ Least nodes n | None ↦ ((n : ℕ) → Has nodes n → ⊥) ] }
{
    nodes.least().map(|node| node as u8)
}

// The least node of the smallest slot that has one and whose job goes ahead of all that wait.
fn first_ahead(nodes: &[BitSet; 16], waiting: BitSet, ahead: &[BitSet; 16]) -> Option<Spot>
    ensures { MatchOption result (NoneAhead nodes.now waiting ahead.now 16) (λ p. FirstAhead nodes.now waiting ahead.now p.slot p.node) }
{
    // by slot, since the first that passes is answered together with its node
    for slot in 0..16 {
        if let Some(node) = least_node(nodes[slot]) {
            if waiting.is_within(ahead[slot]) {
                return Some(Spot {
                    slot: slot as u8,
                    node,
                });
            }
        }
    }
    None
}

// The node that comes next, of those in `left`.
fn next_node(left: &[BitSet; 16], kept: &[BitSet; 16], ahead: &[BitSet; 16]) -> Option<Spot>
    ensures { MatchOption result (NoneMay (RowHas left.now) (AheadIn ahead.now)) (λ p. Next (RowHas left.now) (RowHas kept.now) (AheadIn ahead.now) p.slot p.node) }
{
    let waiting = waiting_slots(left);
    let both = common_rows(left, kept);
    first_ahead(&both, waiting, ahead).or_else(|| first_ahead(left, waiting, ahead))
}

// Fills the cores from core 0 up, as long as a node may come. That there are at most 16 is asked here, in `place` and in
// `write_spots` alone, so that a type for it would be no plainer.
fn fill(ready: &[BitSet; 16], kept: &[BitSet; 16], ahead: &[BitSet; 16], cores: u8) -> Placing
    requires { cores ≤ 16 }
    ensures { Placed (RowHas ready.now) (RowHas kept.now) (AheadIn ahead.now) cores result.spots result.busy }
{
    // a plain loop: each turn changes both what is left and the spots
    let mut left = *ready;
    let mut spots = [None; 16];
    for core in 0..cores {
        let Some(spot) = next_node(&left, kept, ahead) else {
            return Placing { spots, busy: core };
        };
        spots[core as usize] = Some(spot);
        left[spot.slot as usize] = left[spot.slot as usize].without(spot.node as usize);
    }
    Placing { spots, busy: cores }
}

// The ready nodes of the job that is open in a slot.
fn ready_in(tasks: &[Option<Task>; 16], jobs: &[Option<Job>; 16], slot: usize) -> BitSet
    requires { slot < 16 }
    ensures { Marks (ReadyIn tasks.now jobs.now slot) result }
{
    open_in(tasks, jobs, slot).map_or(BitSet::EMPTY, |open| open.ready_nodes())
}

// The ready nodes by slot; by index, as are the two functions here, since that is what `from_fn` gives. What `kept_by_slot` differs in
// is all that it says.
fn ready_by_slot(tasks: &[Option<Task>; 16], jobs: &[Option<Job>; 16]) -> [BitSet; 16]
    ensures { (s : ℕ) → s < 16 → Marks (ReadyIn tasks.now jobs.now s) (row result s) }
{
    std::array::from_fn(|slot| ready_in(tasks, jobs, slot))
}

// The nodes that the job in a slot had on a core in the tick closed last.
fn kept_in(jobs: &[Option<Job>; 16], slot: usize) -> BitSet
    requires { slot < 16 }
    ensures { Marks (KeptIn jobs.now slot) result }
{
    jobs[slot].as_ref().map_or(BitSet::EMPTY, |job| job.placed)
}

// Those nodes by slot.
fn kept_by_slot(jobs: &[Option<Job>; 16]) -> [BitSet; 16]
    ensures { (s : ℕ) → s < 16 → Marks (KeptIn jobs.now s) (row result s) }
{
    std::array::from_fn(|slot| kept_in(jobs, slot))
}

// Places ready nodes on the cores. Row i of `ahead` has the slots whose jobs the job of slot i goes ahead of. It is for callers with
// columns of their own too, which no board has to own.
pub fn place(
    tasks: &[Option<Task>; 16],
    jobs: &[Option<Job>; 16],
    ahead: &[BitSet; 16],
    cores: u8,
) -> Placing
    requires { cores ≤ 16 }
    ensures { Places tasks.now jobs.now ahead.now cores result.spots result.busy }
{
    fill(
        &ready_by_slot(tasks, jobs),
        &kept_by_slot(jobs),
        ahead,
        cores,
    )
}

impl Board {
    // Places ready nodes on the cores. Row i of `ahead` has the slots whose jobs the job of slot i goes ahead of.
    pub fn place(&self, ahead: &[BitSet; 16], cores: u8) -> Placing
        requires { cores ≤ 16 }
        ensures { Places self.now.tasks self.now.jobs ahead.now cores result.spots result.busy }
    {
        place(&self.tasks, &self.jobs, ahead, cores)
    }
}
