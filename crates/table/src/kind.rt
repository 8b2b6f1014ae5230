// The kinds of records by number and length.
ghost use Rattle.std.specs.Prelude.{◌≡◌, ◌≤◌};
ghost use Rattle.table.specs.Format.{size};
ghost use Rattle.table.specs.Layout.{KindTold};

use crate::fault::LayoutFault;
use crate::records::Kind;

impl TryFrom<u16> for Kind {
    type Error = LayoutFault;

    ghost try_from_gives = { KindTold };

    fn try_from(number: u16) -> Result<Kind, LayoutFault> {
        match number {
            1 => Ok(Kind::OfTask),
            2 => Ok(Kind::OfNode),
            3 => Ok(Kind::OfArc),
            _ => Err(LayoutFault::UnknownKind { number }),
        }
    }
}

impl Kind {
    // The length of a whole record.
    pub fn bytes(self) -> usize
        ensures value { result ≡ size self }
        ensures header { 4 ≤ result }
    {
        match self {
            Kind::OfTask | Kind::OfNode => 12,
            Kind::OfArc => 6,
        }
    }
}
