// What is expected where a line of a plan goes wrong.
ghost use Rattle.std.specs.Prelude.{Some};
ghost use Rattle.plans.specs.Expectations.{wanted_words};

use std::fmt;

#[derive(Clone, Copy, Drop, Debug, PartialEq, Eq)]
pub enum Wanted {
    Statement,
    Keyword,
    CoresLine,
    CoreCount,
    OrderLine,
    TaskLine,
    SlotWord,
    Slot,
    Table,
    Period,
    Deadline,
    NodeLine,
    Time,
    Role,
    Opening,
    OpeningNumber,
    Place,
    ArcLine,
    ArcEnds,
    TaskBeforeNodes,
    TaskBeforeArcs,
}

impl fmt::Display for Wanted {
    ghost output = { λ wanted. Some (wanted_words wanted) };

    fn fmt<W: fmt::Write>(&self, f: &mut fmt::Formatter<W>) -> fmt::Result {
        f.write_str(match self {
            Wanted::Statement => "a statement",
            Wanted::Keyword => "a line that begins with cores, order, task, node or arc",
            Wanted::CoresLine => "cores NUMBER",
            Wanted::CoreCount => "a number of cores, 1 to 16",
            Wanted::OrderLine => "order fixed or order open",
            Wanted::TaskLine => "task NAME slot NUMBER, and its period and deadline or its file",
            Wanted::SlotWord => "the word slot after the name of the task",
            Wanted::Slot => "a slot, 0 to 15",
            Wanted::Table => "period NUMBER deadline NUMBER, or file NAME",
            Wanted::Period => "a period in ticks, 1 to 1000000",
            Wanted::Deadline => "a deadline in ticks, 1 to the period",
            Wanted::NodeLine => "node plain, opening or closing, and its time",
            Wanted::Time => "a time in ticks, 1 to 65535",
            Wanted::Role => "the role plain, opening or closing",
            Wanted::Opening => "of NUMBER, the opening that the node closes",
            Wanted::OpeningNumber => "the number of an opening",
            Wanted::Place => "nothing more, or in NUMBER branch NUMBER",
            Wanted::ArcLine => "arc NUMBER NUMBER",
            Wanted::ArcEnds => "the numbers of two nodes",
            Wanted::TaskBeforeNodes => "a task with a period and a deadline before its nodes",
            Wanted::TaskBeforeArcs => "a task with a period and a deadline before its arcs",
        })
    }
}
