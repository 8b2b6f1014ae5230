// Record by record through the bytes of a table, which stay the caller's own.
ghost use Rattle.std.specs.Prelude.{◌≡◌, ◌≤◌, true, false, length, drop, Some, None, Ok, Err};
ghost use Rattle.table.specs.Layout.{told, Laid, Owed, Faulty};
ghost use Rattle.table.specs.Reading.{behind_header};
ghost use Rattle.table.specs.Run.{counted, InTurn, Room};
ghost use Rattle.table.specs.Format.{number, size};
ghost use Rattle.table.specs.Steps.{KeptOut, MeasuredWrong, StandsNext, Faults};
ghost use Rattle.table.specs.declared.fault.LayoutFault.TheVariants.{HeaderCutOff};

use crate::fault::{Fault, LayoutFault};
use crate::records::Kind;

// How many records of each kind have been seen.
#[derive(Clone, Copy, Drop)]
pub struct Seen {
    pub tasks: usize,
    pub nodes: usize,
    pub arcs: usize,
}

impl Seen {
    // May a record of this kind come next?
    pub(crate) fn lets(self, k: Kind) -> bool
        ensures { elim result [ true ↦ InTurn self k | false ↦ (InTurn self k → ⊥) ] }
    {
        match k {
            Kind::OfTask => self.tasks == 0,
            Kind::OfNode => self.tasks == 1 && self.arcs == 0,
            Kind::OfArc => self.nodes > 0,
        }
    }

    // Is there room for one?
    pub(crate) fn fits(self, k: Kind) -> bool
        ensures { elim result [ true ↦ Room self k | false ↦ (Room self k → ⊥) ] }
    {
        match k {
            Kind::OfTask => true,
            Kind::OfNode => self.nodes < 64,
            Kind::OfArc => self.arcs < 256,
        }
    }

    // Does a record of this kind come in turn, with room for it?
    pub(crate) fn check(self, kind: Kind) -> Result<(), LayoutFault>
        ensures { elim result [ Ok _ ↦ InTurn self kind × Room self kind | Err f ↦ KeptOut self kind f ] }
    {
        if !self.lets(kind) {
            return Err(LayoutFault::OutOfTurn { kind });
        }
        if !self.fits(kind) {
            return Err(LayoutFault::TooMany { kind });
        }
        Ok(())
    }

    // The kind of the record that a table must still have.
    pub(crate) fn owed(self) -> Option<Kind>
        ensures { elim result [ Some k ↦ Owed self k | None ↦ (1 ≤ self.tasks) × (1 ≤ self.nodes) ] }
    {
        match self {
            Seen { tasks: 0, .. } => Some(Kind::OfTask),
            Seen { nodes: 0, .. } => Some(Kind::OfNode),
            _ => None,
        }
    }

    // One record more.
    pub(crate) fn count(&mut self, kind: Kind)
        requires { (InTurn self.old kind) × (Room self.old kind) }
        ensures { self.new ≡ counted self.old kind }
    {
        match kind {
            Kind::OfTask => self.tasks += 1,
            Kind::OfNode => self.nodes += 1,
            Kind::OfArc => self.arcs += 1,
        }
    }
}

// A header, and what comes after it.
#[derive(Drop)]
pub struct Header<'a> {
    pub length: u16,
    pub kind: u16,
    pub after: &'a [u8],
}

impl<'a> Header<'a> {
    pub(crate) fn read(rest: &'a [u8]) -> Result<Header<'a>, LayoutFault>
        ensures { elim result [ Ok h ↦ (4 ≤ length rest.now) × (h.length ≡ told rest.now 0) × (h.kind ≡ told rest.now 2) × (h.after.now ≡ drop 4 rest.now) | Err f ↦ (f ≡ HeaderCutOff (length rest.now)) × (length rest.now ≤ 3) ] }
    {
        let &[l0, l1, k0, k1, ref after @ ..] = rest else {
            return Err(LayoutFault::HeaderCutOff { left: rest.len() });
        };
        Ok(Header {
            length: u16::from_le_bytes([l0, l1]),
            kind: u16::from_le_bytes([k0, k1]),
            after,
        })
    }

    // The kind that the header names, if it tells the length of that kind.
    pub(crate) fn measured(&self) -> Result<Kind, LayoutFault>
        ensures { elim result [ Ok k ↦ (self.now.kind ≡ number k) × (self.now.length ≡ size k) | Err f ↦ MeasuredWrong self.now.kind self.now.length f ] }
    {
        let kind = Kind::try_from(self.kind)?;
        if usize::from(self.length) != kind.bytes() {
            return Err(LayoutFault::WrongLength {
                kind,
                told: self.length,
            });
        }
        Ok(kind)
    }
}

// A record as a part of the table: where it begins, its kind, and the bytes of its fields.
#[derive(Clone, Copy, Drop)]
pub struct Part<'a> {
    pub offset: usize,
    pub kind: Kind,
    pub fields: &'a [u8],
}

#[derive(Drop)]
pub struct Reader<'a> {
    pub table: &'a [u8],
    pub at: usize,
    pub seen: Seen,
}

impl<'a> Reader<'a> {
    pub(crate) fn new(table: &'a [u8]) -> Reader<'a>
        ensures { (result.table.now ≡ table.now) × ((result.at ≡ 0) × (result.seen ≡ record { tasks = 0; nodes = 0; arcs = 0 })) }
    {
        Reader {
            table,
            at: 0,
            seen: Seen {
                tasks: 0,
                nodes: 0,
                arcs: 0,
            },
        }
    }

    // The record that stands at the start of `rest`, if its layout is right.
    pub(crate) fn laid(&self, rest: &'a [u8]) -> Result<Part<'a>, LayoutFault>
        requires { 1 ≤ length rest.now }
        ensures { elim result [ Ok p ↦ Laid self.now.seen rest.now p.kind × (p.fields.now ≡ behind_header p.kind rest.now) × (p.offset ≡ self.now.at) | Err f ↦ Faulty self.now.seen rest.now f ] }
    {
        let header = Header::read(rest)?;
        let kind = header.measured()?;
        self.seen.check(kind)?;
        let fields = header
            .after
            .get(..kind.bytes() - 4)
            .ok_or(LayoutFault::RecordCutOff {
                kind,
                left: rest.len(),
            })?;
        Ok(Part {
            offset: self.at,
            kind,
            fields,
        })
    }

    // The record that stands next, or none at the end of the table. No Iterator: that would have to end after a fault,
    // which takes a field more, where this one stays before the fault and its caller leaves by `?`.
    pub(crate) fn next(&mut self) -> Result<Option<Part<'a>>, Fault>
        requires { self.old.at ≤ length self.old.table.now }
        ensures same { self.new.table.now ≡ self.old.table.now }
        ensures within { self.new.at ≤ length self.old.table.now }
        ensures value { elim result [ Ok o ↦ StandsNext self.old.table.now self.old.at self.old.seen self.new.at self.new.seen o | Err f ↦ Faults self.old.table.now self.old.at self.old.seen f ] }
    {
        let offset = self.at;
        let rest = &self.table[offset..];
        if rest.is_empty() {
            return match self.seen.owed() {
                None => Ok(None),
                Some(kind) => Err(Fault::Layout {
                    offset,
                    fault: LayoutFault::Missing { kind },
                }),
            };
        }
        let part = self
            .laid(rest)
            .map_err(|fault| Fault::Layout { offset, fault })?;
        self.at += part.kind.bytes();
        self.seen.count(part.kind);
        Ok(Some(part))
    }
}
