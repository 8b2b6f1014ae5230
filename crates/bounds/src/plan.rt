// What the bounds of a plan depend on.
ghost use Rattle.std.specs.Prelude.{◌≡◌, ◌≤◌, length, Some, None};

use order::{Party, Slot};
use sets::bit_set::BitSet;

// One task: its period and deadline, its longest path and its greatest total.
#[derive(Clone, Copy, Debug, PartialEq, Eq, Drop)]
pub struct Demand {
    pub period: u32,
    pub deadline: u32,
    pub longest: u64,
    pub total: u64,
    ghost timed: { (1 ≤ deadline) × (deadline ≤ period) × (period ≤ 1000000) },
    ghost sized: { (1 ≤ longest) × (longest ≤ total) × (total ≤ 4194240) },
}

// The cores, and the tasks by slot.
#[derive(Clone, Copy, Debug, PartialEq, Eq, Drop)]
pub struct Plan {
    pub cores: u8,
    pub slots: [Option<Demand>; 16],
    ghost manned: { (1 ≤ cores) × (cores ≤ 16) },
    ghost slotted: { length slots ≡ 16 },
}

impl Demand {
    ghost use Rattle.bounds.specs.Equation.{party_of};

    pub fn new(period: u32, deadline: u32, longest: u64, total: u64) -> Option<Demand>
        ensures { elim result [
          | Some d ↦ (d.period ≡ period) × (d.deadline ≡ deadline) × (d.longest ≡ longest) × (d.total ≡ total)
          | None ↦ (1 ≤ deadline → deadline ≤ period → period ≤ 1000000 → 1 ≤ longest → longest ≤ total → total ≤ 4194240 → ⊥)
        ] }
    {
        let timed = (1..=period).contains(&deadline) && period <= 1_000_000;
        let sized = (1..=total).contains(&longest) && total <= 4_194_240;
        if timed && sized {
            Some(Demand {
                period,
                deadline,
                longest,
                total,
            })
        } else {
            None
        }
    }

    // What an order may know of the task, in that slot.
    pub(crate) fn party(self, slot: Slot) -> Party
        ensures { result ≡ party_of slot.number self }
    {
        Party {
            slot: slot.number(),
            period: self.period,
            deadline: self.deadline,
        }
    }
}

impl Plan {
    ghost use Rattle.sets.specs.Sets.{Marks};
    ghost use Rattle.bounds.specs.Equation.{held};
    ghost use Rattle.bounds.specs.Steps.{Holds};

    pub fn new(cores: u8, slots: [Option<Demand>; 16]) -> Option<Plan>
        ensures { elim result [ Some p ↦ (p.cores ≡ cores) × (p.slots ≡ slots) | None ↦ (1 ≤ cores → cores ≤ 16 → ⊥) ] }
    {
        if (1..=16).contains(&cores) {
            Some(Plan { cores, slots })
        } else {
            None
        }
    }

    // The task in a slot.
    pub(crate) fn held(&self, slot: Slot) -> Option<Demand>
        ensures { result ≡ held self.now slot.number }
    {
        self.slots[slot.index()]
    }

    // The slots that hold a task.
    pub(crate) fn tasks(&self) -> BitSet
        ensures { Marks (Holds self.now) result }
    {
        BitSet::select(16, |k| self.held(Slot::at(k)).is_some())
    }
}
