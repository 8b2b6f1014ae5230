// From the text of a plan file to what it says, a statement to each line.
ghost use Rattle.plans.specs.Parsed.{Parsed, OnePlan, NoFlaw};
ghost use Rattle.plans.specs.Statements.{OneStatement};

use crate::draft::Draft;
use crate::plan::{Flaw, PlanText};
use std::alloc::Global;

pub fn parse<'a>(heap: Global, text: &'a str) -> Result<PlanText<'a>, Flaw>
    ensures { Parsed text.now result }
{
    let mut draft = Draft::new(heap);
    for (index, line) in text.lines().enumerate() {
        draft.line(line, index + 1)?;
    }
    draft.finish()
}

// The words of a line make one statement at most.
pub fn one_statement()
    ensures { OneStatement }
{}

// A text says one plan at most.
pub fn one_plan()
    ensures { OnePlan }
{}

// A text that says a plan is told no flaw, unless memory runs out.
pub fn no_flaw()
    ensures { NoFlaw }
{}
