// What is wrong with a table.
ghost use Rattle.std.specs.Prelude.{◌≡◌};
ghost use Rattle.table.specs.Numbers.{fault_number, fault_added};

use crate::records::Kind;

// A fault in the layout of what stands in a table after its sound records.
#[derive(Clone, Copy, Debug, PartialEq, Eq, Drop)]
pub enum LayoutFault {
    // the table ends where a record of this kind should begin
    Missing { kind: Kind },
    // the table ends inside a header, `left` bytes after its start
    HeaderCutOff { left: usize },
    // the header names no kind
    UnknownKind { number: u16 },
    // the header tells another length than that of its kind
    WrongLength { kind: Kind, told: u16 },
    // a record of this kind may not come here
    OutOfTurn { kind: Kind },
    // the table has as many records of this kind as it may
    TooMany { kind: Kind },
    // the table ends inside the record, `left` bytes after its start
    RecordCutOff { kind: Kind, left: usize },
}

// The fields of records.
#[derive(Clone, Copy, Debug, PartialEq, Eq, Drop)]
pub enum Field {
    Period,
    Deadline,
    Role,
    Mate,
    Home,
    Branch,
    Time,
    From,
    To,
}

// A field with a value out of its range.
#[derive(Clone, Copy, Debug, PartialEq, Eq, Drop)]
pub struct Misfit {
    pub field: Field,
    pub value: u32,
}

// Why a table is refused, with the offset of the record at which it stops being sound.
#[derive(Clone, Copy, Debug, PartialEq, Eq, Drop)]
pub enum Fault {
    Layout { offset: usize, fault: LayoutFault },
    Range { offset: usize, misfit: Misfit },
}

impl Fault {
    // The number under which the table is refused.
    pub fn number(&self) -> u8
        ensures { result ≡ fault_number self.now }
    {
        match *self {
            Fault::Layout { .. } => 5,
            Fault::Range { .. } => 6,
        }
    }

    // What the refusal adds to its number: the offset of the record.
    pub fn added(&self) -> usize
        ensures { result ≡ fault_added self.now }
    {
        match *self {
            Fault::Layout { offset, .. } | Fault::Range { offset, .. } => offset,
        }
    }
}
