// Bounds are kept, jobs released, ticks opened and closed.
ghost use Rattle.std.specs.Prelude.{◌≡◌, ◌<◌, ◌≤◌, map, length, Some, None};
ghost use Rattle.bounds.specs.Equation.{Told};
ghost use Rattle.dispatch.specs.Tables.{task_at};
ghost use Rattle.controller.specs.Does.{Opened, ReleaseDoes, CloseDoes};
ghost use Rattle.controller.specs.Effects.{one_more};
ghost use Rattle.controller.specs.Steps.{BoundsKept, SpotsKept};
ghost use Rattle.order.specs.Laws.{Meaning};
ghost use Rattle.controller.specs.State.{held_in};

use crate::checks::slot_exists;
use crate::refusal::Refusal;
use crate::tables::Tables;
use bounds::{Passed, Plan, least_bounds};
use dispatch::board::Board;
use dispatch::job::Job;
use dispatch::spot::write_spots;
use order::Order;
use sets::bit_set::BitSet;

// The longest period that a task may have, in ticks.
const LONGEST_PERIOD: u32 = 1_000_000;

// One tick more, as far as a longest period.
fn wait_longer(waited: Option<u32>) -> Option<u32>
    ensures { result ≡ one_more waited }
{
    waited.map(|ticks| ticks.saturating_add(1).min(LONGEST_PERIOD))
}

// One tick more since each release.
fn wait_a_tick(waited: &mut [Option<u32>; 16])
    ensures { waited.new ≡ map one_more waited.old }
{
    // in place, and by index: the library's `map` of an array first moves all 16 into options
    for slot in 0..16 {
        waited[slot] = wait_longer(waited[slot]);
    }
}

impl Tables {
    // No task, for so many cores.
    pub(crate) fn new(cores: u8) -> Option<Tables>
        ensures { elim result [ Some t ↦ Opened cores t | None ↦ (1 ≤ cores → cores ≤ 16 → ⊥) ] }
    {
        let plan = Plan::new(cores, [None; 16])?;
        Some(Tables {
            plan,
            board: Board::new(),
            waited: [None; 16],
            bounds: None,
            tick: None,
        })
    }

    // The least bounds of the tasks under an order, or a slot that passes its deadline.
    pub(crate) fn bounds_under<O: Order>(&self, order: &O) -> Result<[u32; 16], Passed>
        ensures { Told (O.Order.means order.now).most self.now.plan result }
    {
        least_bounds(order, &self.plan)
    }

    // Keeps the bounds and writes them into a list, and answers how many tasks there are.
    pub(crate) fn keep_bounds(&mut self, bounds: [u32; 16], list: &mut [u32]) -> u8
        requires { 16 ≤ length list.old }
        ensures { BoundsKept self.old bounds list.old result list.new self.new }
    {
        list[..16].copy_from_slice(&bounds);
        self.bounds = Some(bounds);
        self.tasks_held()
    }

    // How many slots hold a task.
    fn tasks_held(&self) -> u8
        ensures { result ≡ held_in self.now.board.tasks }
    {
        self.board
            .tasks
            .iter()
            .filter(|task| task.is_some())
            .count() as u8
    }

    pub(crate) fn release(&mut self, slot: u8) -> Result<u32, Refusal>
        ensures { (o : Meaning) → ReleaseDoes o self.old slot result self.new }
    {
        let slot = slot_exists(slot)?;
        self.no_tick_open()?;
        let task = self.slot_held(slot)?;
        let bounds = self.admitted()?;
        self.period_over(slot, task)?;
        self.earlier_ended(slot)?;
        self.board.jobs[slot.index()] = Some(Job::new());
        self.waited[slot.index()] = Some(0);
        Ok(bounds[slot.index()])
    }

    // Places the nodes that come first, where row i of `ahead` has the slots whose jobs the job of slot i goes ahead of,
    // and writes them into a list of cores.
    pub(crate) fn keep_spots(&mut self, ahead: &[BitSet; 16], list: &mut [u16]) -> u8
        requires { self.old.plan.cores ≤ length list.old }
        ensures { SpotsKept self.old ahead.now list.old result list.new self.new }
    {
        let cores = self.plan.cores;
        let placing = self.board.place(ahead, cores);
        write_spots(&placing.spots, cores, list);
        self.tick = Some(placing.spots);
        placing.busy
    }

    pub(crate) fn close_tick(&mut self, outcomes: &[u8]) -> Result<u16, Refusal>
        ensures { (o : Meaning) → CloseDoes o self.old outcomes.now result self.new }
    {
        let spots = self.tick_open()?;
        let cores = usize::from(self.plan.cores);
        if outcomes.len() != cores {
            return Err(Refusal::Outcomes { cores });
        }
        if let Some(core) = self.board.first_wrong(&spots, outcomes) {
            return Err(Refusal::Outcome { core });
        }
        let ended = self.board.close(&spots, outcomes);
        wait_a_tick(&mut self.waited);
        self.tick = None;
        Ok(ended)
    }
}
