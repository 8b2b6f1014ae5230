// The tasks of a plan with their figures, and what admission answers.
ghost use Rattle.std.specs.Prelude.{◌≡◌, ◌<◌, ◌≤◌, Some as SomeDemand, slice_set};
ghost use Rattle.cli.specs.Verdicts.{Judged};
ghost use Rattle.cli.specs.declared.planning.NotAdmitted.TheVariants.{NoBounds};

use crate::figures::Share;
use crate::wording::Count;
use bounds::{Demand, Passed, Plan, least_bounds};
use order::{Fixed, Open, Slot};
use plans::plan::Precedence;
use std::fmt;

// A task of a plan, and what it asks.
#[derive(Clone, Copy, Debug, PartialEq, Eq, Drop)]
pub(crate) struct Row<'a> {
    pub name: &'a str,
    pub slot: u8,
    pub demand: Demand,
}

impl Row<'_> {
    fn share(&self) -> Share {
        Share {
            total: self.demand.total,
            period: self.demand.period,
        }
    }

    // The bound of its slot.
    fn bound(&self, bounds: &[u32; 16]) -> u32 {
        bounds.get(usize::from(self.slot)).copied().unwrap_or(0)
    }
}

impl fmt::Display for Row<'_> {
    fn fmt<W: fmt::Write>(&self, f: &mut fmt::Formatter<W>) -> fmt::Result {
        let Row { name, slot, demand } = *self;
        write!(f, "{slot:>4} {name:<12} ")?;
        write!(f, "{:>8} {:>8} ", demand.period, demand.deadline)?;
        write!(f, "{:>7} {:>7} ", demand.longest, demand.total)?;
        // to the right of its column, which the share's own Display does not do
        let tenths = self.share().tenths();
        write!(f, "{:>5}.{}%", tenths / 10, tenths % 10)
    }
}

// Why a plan is not admitted.
#[derive(Clone, Copy, Debug, PartialEq, Eq, Drop)]
pub(crate) enum NotAdmitted {
    NoBounds(Passed),
    NoSuchCores { cores: u8 },
}

impl From<Passed> for NotAdmitted {
    ghost from_gives = { λ passed refusal. refusal ≡ NoBounds passed };

    fn from(passed: Passed) -> NotAdmitted {
        NotAdmitted::NoBounds(passed)
    }
}

impl fmt::Display for NotAdmitted {
    fn fmt<W: fmt::Write>(&self, f: &mut fmt::Formatter<W>) -> fmt::Result {
        match self {
            NotAdmitted::NoBounds(Passed { slot }) => write!(
                f,
                "refused 10: no bounds keep every deadline; slot {slot} passes its own"
            ),
            NotAdmitted::NoSuchCores { cores } => {
                write!(f, "refused 1: the cores must be 1 to 16, not {cores}")
            }
        }
    }
}

// What the tasks ask, by slot: the array that a plan is made of.
pub(crate) type Slots = [Option<Demand>; 16];

// Puts what a task asks into its slot.
pub(crate) fn seat(slots: &mut Slots, slot: u8, demand: Demand)
    ensures there { slot < 16 → slots.new ≡ slice_set slots.old slot (SomeDemand demand) }
    ensures elsewhere { 16 ≤ slot → slots.new ≡ slots.old }
{
    if let Some(slot) = Slot::new(slot) {
        slots[slot.index()] = Some(demand);
    }
}

// The least bounds of the tasks, or why there are none.
#[tactic(auto, using(crate::proofs::Judging::answered))]
pub(crate) fn admit(cores: u8, order: Precedence, slots: Slots) -> Result<[u32; 16], NotAdmitted>
    ensures { Judged cores order slots result }
{
    let plan = Plan::new(cores, slots).ok_or(NotAdmitted::NoSuchCores { cores })?;
    match order {
        Precedence::Fixed => Ok(least_bounds(&Fixed, &plan)?),
        Precedence::Open => Ok(least_bounds(&Open, &plan)?),
    }
}

// A plan, and the bounds that it is given.
#[derive(Clone, Copy, Debug, PartialEq, Eq, Drop)]
pub(crate) struct PlanReport<'a, 'n> {
    pub cores: u8,
    pub order: Precedence,
    pub rows: &'a [Row<'n>],
    pub bounds: Result<[u32; 16], NotAdmitted>,
}

impl fmt::Display for PlanReport<'_, '_> {
    fn fmt<W: fmt::Write>(&self, f: &mut fmt::Formatter<W>) -> fmt::Result {
        writeln!(
            f,
            "slot name           period deadline       L       W      use   bound   slack"
        )?;
        for row in self.rows {
            self.write_row(f, row)?;
        }
        self.write_verdict(f)
    }
}

impl PlanReport<'_, '_> {
    fn write_row<W: fmt::Write>(&self, f: &mut fmt::Formatter<W>, row: &Row) -> fmt::Result {
        match &self.bounds {
            Ok(bounds) => {
                let bound = row.bound(bounds);
                let slack = row.demand.deadline.saturating_sub(bound);
                writeln!(f, "{row} {bound:>7} {slack:>7}")
            }
            Err(_) => writeln!(f, "{row}       -       -"),
        }
    }

    fn write_verdict<W: fmt::Write>(&self, f: &mut fmt::Formatter<W>) -> fmt::Result {
        match self.bounds {
            Ok(_) => {
                let tasks = Count(self.rows.len(), "task");
                let cores = Count(usize::from(self.cores), "core");
                writeln!(f, "admitted: {tasks} on {cores}, order {}", self.order)
            }
            Err(refusal) => writeln!(f, "{refusal}"),
        }
    }
}
