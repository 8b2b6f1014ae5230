// What a plan file says.
ghost use Rattle.std.specs.Prelude.{◌≡◌, Some};
ghost use Rattle.plans.specs.declared.plan.Flaw.TheVariants.{NoMemory};
ghost use Rattle.plans.specs.Settings.{setting_line};
ghost use Rattle.plans.specs.Statements.{order_word};

use crate::wanted::Wanted;
use std::alloc::{AllocError, AllocFailed};
use std::fmt;

// Who goes ahead: the smaller slot, or everyone.
#[derive(Clone, Copy, Drop, Debug, PartialEq, Eq)]
pub enum Precedence {
    Fixed,
    Open,
}

impl fmt::Display for Precedence {
    ghost output = { λ order. Some (order_word order) };

    fn fmt<W: fmt::Write>(&self, f: &mut fmt::Formatter<W>) -> fmt::Result {
        match self {
            Precedence::Fixed => f.write_str("fixed"),
            Precedence::Open => f.write_str("open"),
        }
    }
}

// Where the table of a task is: written out in the plan, or in a file beside it.
#[derive(Drop)]
pub enum Source<'a> {
    Written(Vec<u8>),
    File(&'a str),
}

// A task of the plan, with the line on which it begins.
#[derive(Drop)]
pub struct Entry<'a> {
    pub name: &'a str,
    pub slot: u8,
    pub line: usize,
    pub source: Source<'a>,
}

#[derive(Drop)]
pub struct PlanText<'a> {
    pub cores: u8,
    pub order: Precedence,
    pub entries: Vec<Entry<'a>>,
}

// What a plan has to say of all its tasks.
#[derive(Clone, Copy, Drop, Debug, PartialEq, Eq)]
pub enum Setting {
    Cores,
    Order,
}

// As the line that would say it.
impl fmt::Display for Setting {
    ghost output = { λ setting. Some (setting_line setting) };

    fn fmt<W: fmt::Write>(&self, f: &mut fmt::Formatter<W>) -> fmt::Result {
        match self {
            Setting::Cores => f.write_str("cores NUMBER"),
            Setting::Order => f.write_str("order fixed"),
        }
    }
}

// Why a text is no plan.
#[derive(Clone, Copy, Drop, Debug, PartialEq, Eq)]
pub enum Flaw {
    // something else is expected on this line
    Expected { line: usize, what: Wanted },
    // a slot is given to a second task on this line
    SlotTaken { line: usize, slot: u8 },
    // the plan never says it
    Missing { what: Setting },
    NoMemory,
}

impl From<AllocError> for Flaw {
    ghost from_gives = { λ _ flaw. flaw ≡ NoMemory };

    fn from(_error: AllocError) -> Flaw {
        Flaw::NoMemory
    }
}

impl<T: Drop> From<AllocFailed<T>> for Flaw {
    ghost from_gives = { λ _ flaw. flaw ≡ NoMemory };

    fn from(_refused: AllocFailed<T>) -> Flaw {
        Flaw::NoMemory
    }
}

impl fmt::Display for Flaw {
    fn fmt<W: fmt::Write>(&self, f: &mut fmt::Formatter<W>) -> fmt::Result {
        match self {
            Flaw::Expected { line, what } => write!(f, "line {line}: expected {what}"),
            Flaw::SlotTaken { line, slot } => {
                write!(f, "line {line}: slot {slot} already has a task")
            }
            Flaw::Missing { what } => write!(f, "the plan has no line '{what}'"),
            Flaw::NoMemory => f.write_str("out of memory"),
        }
    }
}
