// The checks of calls: each passes, or turns the call away under its refusal.
ghost use Rattle.std.specs.Prelude.{◌≡◌, ◌<◌, ◌≤◌, List, [], ◌∷◌, length, Some, None, Ok, Err};
ghost use Rattle.controller.specs.Checks.{Check, Checked, Decided, TurnedAway, slot_exists as slot_is_one, no_tick_open, no_job_open, slot_free, slot_held, tick_open, admitted, period_over, earlier_ended, room_for_bounds, room_for_cores, bounds_exist};
ghost use Rattle.controller.specs.declared.refusal.Refusal.TheVariants.{NoSlot, ShortList};
ghost use Rattle.order.specs.Laws.{Meaning};
ghost use Rattle.controller.specs.State.{cores, task_in, NoneOpen};

use crate::refusal::Refusal;
use crate::tables::Tables;
use dispatch::spot::Spots;
use order::Slot;
use task::Task;

// A list of so many entries has as many as are needed.
fn has_room(entries: usize, needed: usize) -> Result<(), Refusal>
    ensures { elim result [ Ok _ ↦ needed ≤ entries | Err e ↦ (entries < needed) × (e ≡ ShortList needed) ] }
{
    if entries < needed {
        return Err(Refusal::ShortList { needed });
    }
    Ok(())
}

// The slot of that number.
pub(crate) fn slot_exists(number: u8) -> Result<Slot, Refusal>
    ensures { elim result [ Ok s ↦ s.number ≡ number | Err e ↦ (16 ≤ number) × (e ≡ NoSlot) ] }
{
    Slot::new(number).ok_or(Refusal::NoSlot)
}

impl Tables {
    // No tick is open.
    pub(crate) fn no_tick_open(&self) -> Result<(), Refusal>
        ensures { Decided self.now no_tick_open result }
    {
        match self.tick {
            None => Ok(()),
            Some(_) => Err(Refusal::TickOpen),
        }
    }

    // No job is open.
    fn no_job_open(&self) -> Result<(), Refusal>
        ensures { Decided self.now no_job_open result }
    {
        if self.board.jobs.iter().any(|job| job.is_some()) {
            return Err(Refusal::JobOpen);
        }
        Ok(())
    }

    // The slot of that number, where it exists, and no tick and no job is open.
    pub(crate) fn may_edit(&self, slot: u8) -> Result<Slot, Refusal>
        ensures { elim result [
          | Ok s ↦ (s.number ≡ slot) × (self.now.tick ≡ None) × NoneOpen self.now.board.jobs
          | Err e ↦ ((o : Meaning) (rest : List Check) → TurnedAway o self.now (slot_is_one slot ∷ no_tick_open ∷ no_job_open ∷ rest) e)
        ] }
    {
        let slot = slot_exists(slot)?;
        self.no_tick_open()?;
        self.no_job_open()?;
        Ok(slot)
    }

    // Whether the tasks may be admitted, into a list of bounds.
    pub(crate) fn may_admit(&self, list: &[u32]) -> Result<(), Refusal>
        ensures { elim result [
          | Ok _ ↦ (self.now.tick ≡ None) × NoneOpen self.now.board.jobs × (16 ≤ length list.now)
          | Err e ↦ ((o : Meaning) → TurnedAway o self.now (no_tick_open ∷ no_job_open ∷ room_for_bounds list.now ∷ bounds_exist ∷ []) e)
        ] }
    {
        self.no_tick_open()?;
        self.no_job_open()?;
        has_room(list.len(), 16)?;
        Ok(())
    }

    // Whether a tick may be opened, into a list of cores.
    pub(crate) fn may_tick(&self, list: &[u16]) -> Result<(), Refusal>
        ensures { elim result [
          | Ok _ ↦ (self.now.tick ≡ None) × (cores self.now ≤ length list.now)
          | Err e ↦ ((o : Meaning) → TurnedAway o self.now (no_tick_open ∷ room_for_cores list.now ∷ []) e)
        ] }
    {
        self.no_tick_open()?;
        has_room(list.len(), usize::from(self.plan.cores))?;
        Ok(())
    }

    // What the cores run, while a tick is open.
    pub(crate) fn tick_open(&self) -> Result<Spots, Refusal>
        ensures { Checked self.now tick_open (λ spots. self.now.tick ≡ Some spots) result }
    {
        self.tick.ok_or(Refusal::NoTick)
    }

    // The slot holds no task. It differs from `earlier_ended` in all that it says: the column, the check and the refusal.
    pub(crate) fn slot_free(&self, slot: Slot) -> Result<(), Refusal>
        ensures { Decided self.now (slot_free slot.number) result }
    {
        match self.board.tasks[slot.index()] {
            None => Ok(()),
            Some(_) => Err(Refusal::Occupied),
        }
    }

    // The task that the slot holds.
    pub(crate) fn slot_held(&self, slot: Slot) -> Result<&Task, Refusal>
        ensures { Checked self.now (slot_held slot.number) (λ τ. task_in self.now slot.number ≡ Some τ.now) result }
    {
        self.board.tasks[slot.index()]
            .as_ref()
            .ok_or(Refusal::Empty)
    }

    // The bounds of the tasks as they are, where they have been admitted.
    pub(crate) fn admitted(&self) -> Result<[u32; 16], Refusal>
        ensures { Checked self.now admitted (λ bounds. self.now.bounds ≡ Some bounds) result }
    {
        self.bounds.ok_or(Refusal::NotAdmitted)
    }

    // The slot's task was never released, or a period ago.
    pub(crate) fn period_over(&self, slot: Slot, task: &Task) -> Result<(), Refusal>
        requires { task_in self.now slot.number ≡ Some task.now }
        ensures { Decided self.now (period_over slot.number) result }
    {
        let period = task.timing().period;
        let waited = self.waited[slot.index()];
        match waited {
            Some(ticks) if ticks < period => Err(Refusal::TooSoon {
                to_go: period - ticks,
            }),
            _ => Ok(()),
        }
    }

    // The slot has no open job.
    pub(crate) fn earlier_ended(&self, slot: Slot) -> Result<(), Refusal>
        ensures { Decided self.now (earlier_ended slot.number) result }
    {
        match self.board.jobs[slot.index()] {
            None => Ok(()),
            Some(_) => Err(Refusal::StillOpen),
        }
    }
}
