// Who goes ahead of whom among the open jobs, as the order answers.
ghost use Rattle.std.specs.Prelude.{◌≡◌, ◌<◌, true, length, pos, ◌-ℤ◌};
ghost use Rattle.sets.specs.Sets.{Marks};
ghost use Rattle.sets.specs.Tests.{Says};
ghost use Rattle.dispatch.specs.Tables.{task_at, job_at};
ghost use Rattle.controller.specs.Ahead.{AheadAmong};
ghost use Rattle.controller.specs.Steps.{entrant, EntrantsAre, Precedence};

use dispatch::board::{Board, OpenJob};
use order::{Order, Party, Slot};
use sets::bit_set::BitSet;

// An open job as the order sees it.
#[derive(Clone, Copy, Drop)]
pub(crate) struct Entrant {
    pub party: Party,
    pub age: u32,
}

fn entrant_of(board: &Board, slot: Slot) -> Option<Entrant>
    ensures { result ≡ entrant slot.number (task_at board.now.tasks slot.number) (job_at board.now.jobs slot.number) }
{
    let OpenJob { task, job } = board.open(slot.index())?;
    let timing = task.timing();
    let party = Party {
        slot: slot.number(),
        period: timing.period,
        deadline: timing.deadline,
    };
    Some(Entrant {
        party,
        age: job.age,
    })
}

// The open jobs by slot.
fn entrants_of(board: &Board) -> [Option<Entrant>; 16]
    ensures { EntrantsAre board.now.tasks board.now.jobs result }
{
    // filled in place, as are the rows of `precedence`: an array from `map_all` is cleared first, and moved at each return
    let mut found = [None; 16];
    for slot in 0..16 {
        found[slot] = entrant_of(board, Slot::at(slot));
    }
    found
}

// Whether the first job goes ahead of the other: it was released as many ticks after it as it is younger.
fn goes_first<O: Order>(order: &O, first: Entrant, other: Entrant) -> bool
    ensures { result ≡ (O.Order.means order.now).goes first.party other.party (pos other.age -ℤ pos first.age) }
{
    order.ahead(
        first.party,
        other.party,
        i64::from(other.age) - i64::from(first.age),
    )
}

// Whether the job of slot i goes ahead of the job of slot k; a job goes ahead of itself.
fn is_ahead<O: Order>(order: &O, entrants: &[Option<Entrant>; 16], i: Slot, k: Slot) -> bool
    ensures { Says result (AheadAmong (O.Order.means order.now).goes entrants.now i.number k.number) }
{
    if i == k {
        return true;
    }
    match (entrants[i.index()], entrants[k.index()]) {
        (Some(first), Some(other)) => goes_first(order, first, other),
        _ => false,
    }
}

// The slots whose jobs the job of slot i goes ahead of.
fn slots_behind<O: Order>(order: &O, entrants: &[Option<Entrant>; 16], i: Slot) -> BitSet
    ensures { Marks (AheadAmong (O.Order.means order.now).goes entrants.now i.number) result }
{
    BitSet::select(16, |k| is_ahead(order, entrants, i, Slot::at(k)))
}

// For each slot, the slots whose jobs its job goes ahead of.
pub(crate) fn precedence<O: Order>(order: &O, board: &Board) -> [BitSet; 16]
    ensures { Precedence (O.Order.means order.now) board.now.tasks board.now.jobs result }
{
    let entrants = entrants_of(board);
    let mut rows = [BitSet::EMPTY; 16];
    for slot in 0..16 {
        rows[slot] = slots_behind(order, &entrants, Slot::at(slot));
    }
    rows
}
