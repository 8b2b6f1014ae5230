// Numbers as they are written.
ghost use Rattle.plans.specs.Numerals.{Counted};
ghost use Rattle.plans.specs.Statements.{greatest_time};

// A time in ticks.
pub(crate) fn ticks_in(word: &str) -> Option<u32>
    ensures { Counted greatest_time word.now result }
{
    word.parse().ok()
}

// A slot, or the number of a node or of a branch.
pub(crate) fn byte_in(word: &str, most: u8) -> Option<u8>
    ensures { Counted most word.now result }
{
    word.parse().ok().filter(|n| *n <= most)
}
