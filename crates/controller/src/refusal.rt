// Why a call is turned away.
ghost use Rattle.std.specs.Prelude.{◌≡◌};
ghost use Rattle.controller.specs.declared.refusal.Refusal.TheVariants.{Table, NoBounds};
ghost use Rattle.controller.specs.Refusals.{refusal_number, refusal_added};

use bounds::Passed;
use task::Refusal as TableRefusal;

#[derive(Clone, Copy, Debug, PartialEq, Eq, Drop)]
pub enum Refusal {
    // the cores are not 1 to 16
    Cores,
    // the slot is above 15
    NoSlot,
    // a job is open
    JobOpen,
    // the slot holds a task
    Occupied,
    // the bytes describe no lawful task
    Table(TableRefusal),
    // the time is not 1 to 65,535
    Time,
    // the slot holds no task
    Empty,
    // the task has no such node
    NoNode,
    // no bounds keep every deadline
    NoBounds,
    // the list has fewer entries than are needed
    ShortList { needed: usize },
    // a tick is open
    TickOpen,
    // the tasks have not been admitted as they are now
    NotAdmitted,
    // the task was released less than a period ago
    TooSoon { to_go: u32 },
    // the earlier job of the slot is open
    StillOpen,
    // no tick is open
    NoTick,
    // there are not as many outcomes as cores
    Outcomes { cores: usize },
    // the outcome on this core, the first such, is not allowed
    Outcome { core: usize },
}

impl From<TableRefusal> for Refusal {
    ghost from_gives = { λ told refusal. refusal ≡ Table told };

    fn from(refusal: TableRefusal) -> Self {
        Self::Table(refusal)
    }
}

impl From<Passed> for Refusal {
    ghost from_gives = { λ _ refusal. refusal ≡ NoBounds };

    // No bounds keep every deadline: that is told of all slots, not of the one that passed its own.
    fn from(_passed: Passed) -> Self {
        Self::NoBounds
    }
}

impl Refusal {
    // The number under which the call is turned away.
    pub fn number(&self) -> u8
        ensures { result ≡ refusal_number self.now }
    {
        match *self {
            Refusal::Cores => 1,
            Refusal::NoSlot => 2,
            Refusal::JobOpen => 3,
            Refusal::Occupied => 4,
            Refusal::Table(refusal) => refusal.number(),
            Refusal::Time => 6,
            Refusal::Empty => 8,
            Refusal::NoNode => 9,
            Refusal::NoBounds => 10,
            Refusal::ShortList { .. } => 11,
            Refusal::TickOpen => 12,
            Refusal::NotAdmitted => 13,
            Refusal::TooSoon { .. } => 14,
            Refusal::StillOpen => 15,
            Refusal::NoTick => 16,
            Refusal::Outcomes { .. } => 17,
            Refusal::Outcome { .. } => 18,
        }
    }

    // What the refusal adds to its number, if anything.
    pub fn added(&self) -> Option<usize>
        ensures { result ≡ refusal_added self.now }
    {
        match *self {
            Refusal::Table(refusal) => Some(refusal.added()),
            Refusal::Time => Some(0),
            Refusal::ShortList { needed } => Some(needed),
            Refusal::TooSoon { to_go } => Some(to_go as usize),
            Refusal::Outcomes { cores } => Some(cores),
            Refusal::Outcome { core } => Some(core),
            _ => None,
        }
    }
}
