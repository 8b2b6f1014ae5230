// A lawful task, and how it is refused.
ghost use Rattle.task.specs.Held.{LawfulTask};

use crate::rules::Broken;
use table::fault::Fault;
use table::records::Table;

// A task that its table describes: its records are in range and have the lawful shape, and no one can change that.
#[derive(Clone, Copy, Debug, Drop)]
pub struct Task {
    pub(crate) table: Table,
    ghost lawful: { ∥ LawfulTask table ∥₁ },
}

// Why a table describes no lawful task.
#[derive(Clone, Copy, Debug, PartialEq, Eq, Drop)]
pub enum Refusal {
    // its bytes are no sound records
    Unsound(Fault),
    // its graph breaks a rule of the shape
    Misshapen(Broken),
}
