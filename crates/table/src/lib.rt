// The task table: its records, and the reader over a caller's bytes.
#![tactic(auto)]

ghost use Rattle.table.specs.Cases.{CasesStand};
ghost use Rattle.table.specs.Reading.{Answered};

pub mod fault;
mod fields;
mod kind;
mod lists;
mod reader;
pub mod records;
mod store;
#[cfg(test)]
mod tests;

use fault::Fault;
use reader::Reader;
use records::Table;

// The records of a table, or the first fault in it with the offset of its record.
pub fn read(table: &[u8]) -> Result<Table, Fault>
    ensures { Answered table.now result }
{
    let mut reader = Reader::new(table);
    let mut records = Table::empty();
    while let Some(part) = reader.next()? {
        records.put(part)?;
    }
    Ok(records)
}

// The worked cases hold of the definitions.
pub fn cases_stand()
    ensures { CasesStand }
{}
