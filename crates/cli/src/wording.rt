// The words by which a person is told of kinds, fields and counts.
// Kinds and fields are types of another crate, and a kind goes by several words: so functions, and no Display.
ghost use Rattle.std.specs.Iterator.{IsFinite};

use std::fmt;
use table::fault::Field;
use table::records::Kind;

// How many there are of what the noun names.
#[derive(Clone, Copy, Debug, PartialEq, Eq, Drop)]
pub(crate) struct Count(pub usize, pub &'static str);

impl fmt::Display for Count {
    fn fmt<W: fmt::Write>(&self, f: &mut fmt::Formatter<W>) -> fmt::Result {
        let Count(n, noun) = *self;
        let ending = if n == 1 { "" } else { "s" };
        write!(f, "{n} {noun}{ending}")
    }
}

// Writes the items in a row, with the separator between each two.
pub(crate) fn write_list<W: fmt::Write, I: Iterator + Drop>(
    f: &mut fmt::Formatter<W>,
    mut items: I,
    separator: &str,
) -> fmt::Result
where
    I::Item: fmt::Display + Drop,
    requires can { I.can_next items }
    requires ends { IsFinite (I.remaining items) }
{
    let Some(first) = items.next() else {
        return Ok(());
    };
    write!(f, "{first}")?;
    for item in items {
        write!(f, "{separator}{item}")?;
    }
    Ok(())
}

// Any record of the kind.
pub(crate) fn name_of_record(kind: Kind) -> &'static str {
    match kind {
        Kind::OfTask => "a task record",
        Kind::OfNode => "a node record",
        Kind::OfArc => "an arc record",
    }
}

// The first record of the kind.
pub(crate) fn name_of_first(kind: Kind) -> &'static str {
    match kind {
        Kind::OfTask => "task record",
        Kind::OfNode => "first node",
        Kind::OfArc => "first arc",
    }
}

// When a record of the kind may come.
pub(crate) fn turn_of(kind: Kind) -> &'static str {
    match kind {
        Kind::OfTask => "a task record comes once, at the start",
        Kind::OfNode => "a node record comes after the task record and before the arcs",
        Kind::OfArc => "an arc record cannot come before the first node",
    }
}

// How many records of the kind a table has at most.
pub(crate) fn most_of(kind: Kind) -> &'static str {
    match kind {
        Kind::OfTask => "1 task record",
        Kind::OfNode => "64 nodes",
        Kind::OfArc => "256 arcs",
    }
}

pub(crate) fn name_of_field(field: Field) -> &'static str {
    match field {
        Field::Period => "period",
        Field::Deadline => "deadline",
        Field::Role => "role",
        Field::Mate => "mate",
        Field::Home => "home",
        Field::Branch => "branch",
        Field::Time => "time",
        Field::From => "arc from",
        Field::To => "arc to",
    }
}

// The values that the field may have.
pub(crate) fn range_of(field: Field) -> &'static str {
    match field {
        Field::Period => "1 to 1000000",
        Field::Deadline => "1 to the period",
        Field::Role => "0 (plain), 1 (opening) or 2 (closing)",
        Field::Mate => "a smaller number than the node's own for a closing, 255 for any other",
        Field::Home => "an opening with a smaller number than the node, or 255 for none",
        Field::Branch => "0 to 7, and 0 for a node without a home",
        Field::Time => "1 to 65535",
        Field::From => "a smaller number than that of the node it leads to",
        Field::To => "the number of a node in the table",
    }
}
