// Why a table is refused, as a sentence.
use crate::wording::{
    Count, most_of, name_of_field, name_of_first, name_of_record, range_of, turn_of,
};
use std::fmt;
use table::fault::{Fault, LayoutFault, Misfit};
use table::records::{Node, Region, Role, Table};
use task::Refusal;
use task::rules::{Broken, Rule};

// Why the table in these bytes is refused: what is wrong, and what is expected in its place.
#[derive(Clone, Copy, Drop)]
pub struct Sentence<'a> {
    pub refusal: Refusal,
    pub bytes: &'a [u8],
}

impl fmt::Display for Sentence<'_> {
    fn fmt<W: fmt::Write>(&self, f: &mut fmt::Formatter<W>) -> fmt::Result {
        match self.refusal {
            Refusal::Unsound(Fault::Layout { fault, .. }) => write!(f, "{}", OfLayout(fault)),
            Refusal::Unsound(Fault::Range { misfit, .. }) => write!(f, "{}", OfRange(misfit)),
            Refusal::Misshapen(broken) => match table::read(self.bytes) {
                Ok(table) => {
                    let table = &table;
                    write!(f, "{}", OfShape { table, broken })
                }
                Err(_) => Ok(()),
            },
        }
    }
}

// What the rule wants, and the node or arc of the table that is first to break it.
#[derive(Clone, Copy, Drop)]
struct OfShape<'a> {
    table: &'a Table,
    broken: Broken,
}

impl fmt::Display for OfShape<'_> {
    fn fmt<W: fmt::Write>(&self, f: &mut fmt::Formatter<W>) -> fmt::Result {
        let at = self.broken.at;
        match self.broken.rule {
            Rule::HomesAreOpenings => self.write_home(f),
            Rule::MatesPairUp => self.write_mates(f),
            Rule::BranchesCountUp => write!(
                f,
                "the branches of opening {at} must be numbered from 0, and none skipped"
            ),
            Rule::ArcsAreLawful => self.write_arc(f),
            Rule::OneFirstOneLast => write!(
                f,
                "the region of node {at} must have just one first unit and just one last"
            ),
            Rule::BlocksAreWired => write!(
                f,
                "an opening must lead to the first unit of each of its branches, the last unit of each must lead to the closing, and no other may; node {at} breaks this"
            ),
        }
    }
}

impl OfShape<'_> {
    fn node(&self) -> Option<&Node> {
        self.table.nodes.as_slice().get(self.broken.at)
    }

    fn write_home<W: fmt::Write>(&self, f: &mut fmt::Formatter<W>) -> fmt::Result {
        let at = self.broken.at;
        write!(f, "the home of node {at} must be an opening")?;
        match self.node().map(|node| node.region) {
            Some(Region::Branch { home, .. }) => write!(f, ", and node {home} is none"),
            _ => Ok(()),
        }
    }

    // What a closing or an opening lacks.
    fn write_mates<W: fmt::Write>(&self, f: &mut fmt::Formatter<W>) -> fmt::Result {
        let at = self.broken.at;
        match self.node().map(|node| node.role) {
            Some(Role::Closing { mate }) => write!(
                f,
                "the mate of closing {at} must be an opening, and node {mate} is none"
            ),
            _ => write!(
                f,
                "opening {at} must be the mate of just one closing, in its own region"
            ),
        }
    }

    fn write_arc<W: fmt::Write>(&self, f: &mut fmt::Formatter<W>) -> fmt::Result {
        let at = self.broken.at;
        write!(f, "arc {at}")?;
        if let Some(arc) = self.table.arcs.as_slice().get(at) {
            write!(f, " from {} to {}", arc.from, arc.to)?;
        }
        f.write_str(
            " must join two units of one region, lead from an opening into its branch, or lead out of a branch to its closing, and be given once",
        )
    }
}

#[derive(Clone, Copy, Debug, PartialEq, Eq, Drop)]
struct OfLayout(LayoutFault);

impl fmt::Display for OfLayout {
    fn fmt<W: fmt::Write>(&self, f: &mut fmt::Formatter<W>) -> fmt::Result {
        match self.0 {
            LayoutFault::Missing { kind } => {
                write!(
                    f,
                    "the table ends where its {} should begin",
                    name_of_first(kind)
                )
            }
            LayoutFault::HeaderCutOff { left } => {
                let left = Count(left, "byte");
                write!(f, "the table ends {left} into a record header of 4 bytes")
            }
            LayoutFault::UnknownKind { number } => {
                write!(f, "kind {number} is none of 1 (task), 2 (node) and 3 (arc)")
            }
            LayoutFault::WrongLength { kind, told } => {
                let size = kind.bytes();
                write!(
                    f,
                    "{} is {size} bytes long, but this one says {told}",
                    name_of_record(kind)
                )
            }
            LayoutFault::OutOfTurn { kind } => f.write_str(turn_of(kind)),
            LayoutFault::TooMany { kind } => write!(f, "a table has at most {}", most_of(kind)),
            LayoutFault::RecordCutOff { kind, left } => {
                let left = Count(left, "byte");
                let record = name_of_record(kind);
                let size = kind.bytes();
                write!(f, "the table ends {left} into {record} of {size} bytes")
            }
        }
    }
}

#[derive(Clone, Copy, Debug, PartialEq, Eq, Drop)]
struct OfRange(Misfit);

impl fmt::Display for OfRange {
    fn fmt<W: fmt::Write>(&self, f: &mut fmt::Formatter<W>) -> fmt::Result {
        let Misfit { field, value } = self.0;
        write!(
            f,
            "{} {value} is out of range: {}",
            name_of_field(field),
            range_of(field)
        )
    }
}
