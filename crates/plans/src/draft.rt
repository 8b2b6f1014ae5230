// A plan while its statements come.
ghost use Rattle.std.specs.Prelude.{◌≡◌, ◌≢◌, List, [], IfOk, MatchBool};
ghost use Rattle.plans.specs.Drafts.{Drafted, RecordOf, Advances, Blamed, Finishes, ReadsLine};
ghost use Rattle.plans.specs.Entries.{Placed, told_source, told_entries, source_of as begun, HasSlot};
ghost use Rattle.plans.specs.Statements.{Said, Makes, texts, meaning, told_table, task as task_said};

use crate::plan::{Entry, Flaw, PlanText, Precedence, Setting, Source};
use crate::records::{arc_bytes, node_bytes, task_bytes};
use crate::statement::{Origin, Statement, slot_named, statement_of};
use crate::wanted::Wanted;
use crate::words::words_of;
use std::alloc::{AllocError, Global};

// What has been read so far. Nodes and arcs go into the table of the last entry, where that is written out.
#[derive(Drop)]
pub(crate) struct Draft<'a> {
    pub heap: Global,
    pub cores: Option<u8>,
    pub order: Option<Precedence>,
    pub entries: Vec<Entry<'a>>,
}

// Whether an entry has the slot.
fn is_taken(entries: &[Entry], slot: u8) -> bool
    ensures { MatchBool result (HasSlot slot (told_entries entries.now)) (HasSlot slot (told_entries entries.now) → ⊥) }
{
    entries.iter().any(|held| held.slot == slot)
}

// Where the table is of a task without nodes and arcs as yet.
fn source_of<'a>(heap: Global, origin: Origin<'a>) -> Result<Source<'a>, AllocError>
    ensures { IfOk result (λ source. told_source source ≡ begun (told_table origin.entry) []) }
{
    match origin {
        Origin::Timed(timing) => Ok(Source::Written(task_bytes(timing).to_vec(heap)?)),
        Origin::Filed(file) => Ok(Source::File(file)),
    }
}

impl<'a> Draft<'a> {
    pub(crate) fn new(heap: Global) -> Draft<'a>
        ensures { Drafted result [] }
    {
        Draft {
            heap,
            cores: None,
            order: None,
            entries: Vec::new(heap),
        }
    }

    // Takes in a task: its record is the first of its table, if that is written out.
    fn task(&mut self, name: &'a str, slot: u8, origin: Origin<'a>, line: usize) -> Result<(), Flaw>
        ensures { (ps : List Placed) → Drafted self.old ps → Advances ps (task_said name.now slot (told_table origin.entry)) line self.new result }
    {
        if is_taken(&self.entries, slot) {
            return Err(Flaw::SlotTaken { line, slot });
        }
        let source = source_of(self.heap, origin)?;
        self.entries.push(Entry {
            name,
            slot,
            line,
            source,
        })?;
        Ok(())
    }

    // Takes in a record of the open task's table.
    fn write(&mut self, record: &[u8], what: Wanted, line: usize) -> Result<(), Flaw>
        ensures { (ps : List Placed) (s : Said) → Drafted self.old ps → RecordOf s record.now → Advances ps s line self.new result }
    {
        let Some(entry) = self.entries.last_mut() else {
            return Err(Flaw::Expected { line, what });
        };
        let Source::Written(table) = &mut entry.source else {
            return Err(Flaw::Expected { line, what });
        };
        table.extend_from_slice(record)?;
        Ok(())
    }

    // Takes in the statement of a line.
    fn take(&mut self, statement: Statement<'a>, line: usize) -> Result<(), Flaw>
        ensures { (ps : List Placed) → Drafted self.old ps → Advances ps (meaning statement.entry) line self.new result }
    {
        match statement {
            Statement::Cores(cores) => {
                self.cores = Some(cores);
                Ok(())
            }
            Statement::Order(order) => {
                self.order = Some(order);
                Ok(())
            }
            Statement::Task { name, slot, origin } => self.task(name, slot, origin, line),
            Statement::OfNode(node) => self.write(&node_bytes(node), Wanted::TaskBeforeNodes, line),
            Statement::OfArc(arc) => self.write(&arc_bytes(arc), Wanted::TaskBeforeArcs, line),
        }
    }

    // Whether nodes and arcs may follow.
    fn is_open(&self) -> bool {
        matches!(
            self.entries.last(),
            Some(Entry {
                source: Source::Written(_),
                ..
            })
        )
    }

    // What was expected: a task, where the words begin a node or an arc and no task is open.
    fn expected(&self, words: &[&'a str], what: Wanted) -> Wanted {
        match words {
            ["node", ..] if !self.is_open() => Wanted::TaskBeforeNodes,
            ["arc", ..] if !self.is_open() => Wanted::TaskBeforeArcs,
            _ => what,
        }
    }

    // What is wrong with words that make no statement.
    fn blame(&self, words: &[&'a str], line: usize, what: Wanted) -> Flaw
        ensures { (ps : List Placed) → Drafted self.now ps → (texts words.now ≢ []) → ((s : Said) → Makes (texts words.now) s → ⊥) → Blamed ps (texts words.now) line result }
    {
        match slot_named(words) {
            Some(slot) if is_taken(&self.entries, slot) => Flaw::SlotTaken { line, slot },
            _ => Flaw::Expected {
                line,
                what: self.expected(words, what),
            },
        }
    }

    // Takes in a line: nothing where it has no words, or its statement.
    pub(crate) fn line(&mut self, line: &'a str, number: usize) -> Result<(), Flaw>
        ensures { (ps : List Placed) → Drafted self.old ps → ReadsLine ps line.now number self.new result }
    {
        let words = words_of(self.heap, line)?;
        if words.is_empty() {
            return Ok(());
        }
        // a match: either way the draft itself goes on
        match statement_of(&words) {
            Ok(statement) => self.take(statement, number),
            Err(what) => Err(self.blame(&words, number, what)),
        }
    }

    // The plan of all the statements.
    pub(crate) fn finish(self) -> Result<PlanText<'a>, Flaw>
        ensures { (ps : List Placed) → Drafted self.entry ps → Finishes ps result }
    {
        let cores = self.cores.ok_or(Flaw::Missing {
            what: Setting::Cores,
        })?;
        let order = self.order.ok_or(Flaw::Missing {
            what: Setting::Order,
        })?;
        Ok(PlanText {
            cores,
            order,
            entries: self.entries,
        })
    }
}
