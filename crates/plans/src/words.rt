// The words of a line.
ghost use Rattle.plans.specs.Lines.{Uncommented, WordsOf, Worded as WordedLine};
ghost use Rattle.plans.specs.Statements.{texts};
ghost use Rattle.std.specs.Prelude.{IfOk};

use std::alloc::{AllocError, Global};

// A line without its comment.
fn code_of(line: &str) -> &str
    ensures { Uncommented line.now result.now }
{
    line.split_once('#').map_or(line, |(code, _)| code)
}

// The runs of characters that are not white space.
fn split<'a>(heap: Global, code: &'a str) -> Result<Vec<&'a str>, AllocError>
    ensures { IfOk result (λ v. WordsOf code.now (texts v.items)) }
{
    code.split_whitespace().collect(heap)
}

pub(crate) fn words_of<'a>(heap: Global, line: &'a str) -> Result<Vec<&'a str>, AllocError>
    ensures { IfOk result (λ v. WordedLine line.now (texts v.items)) }
{
    split(heap, code_of(line))
}
