// The rules of a task's shape, and what a task breaks that lacks it.
ghost use Rattle.std.specs.Prelude.{◌≡◌, Some, None, Ok, Err};
ghost use Rattle.task.specs.Rules.{rule_number};

// The rules, in the sequence in which they are tried.
#[derive(Clone, Copy, Debug, PartialEq, Eq, Drop)]
pub enum Rule {
    // each node's home is an opening
    HomesAreOpenings = 1,
    // each closing's mate is an opening, and each opening has just one closing, in its own region
    MatesPairUp = 2,
    // each opening has a node in branch 0, and no branch number is skipped
    BranchesCountUp = 3,
    // each arc is inner, entry or exit, and none is given twice
    ArcsAreLawful = 4,
    // in each region just one unit has no inner arc into it, and just one has none out of it
    OneFirstOneLast = 5,
    // each opening has an entry arc to the first unit of each of its branches and no other, each closing an exit arc from
    // the last unit of each and no other
    BlocksAreWired = 6,
}

impl Rule {
    pub fn number(&self) -> u8
        ensures { result ≡ rule_number self.now }
    {
        *self as u8
    }

    // Whether the rule is kept, by the first place at which it is broken.
    pub(crate) fn kept(self, first_broken: Option<usize>) -> Result<(), Broken>
        ensures { elim result [ Ok _ ↦ first_broken ≡ None | Err broken ↦ (first_broken ≡ Some broken.at) × (broken.rule ≡ self) ] }
    {
        match first_broken {
            Some(at) => Err(Broken { rule: self, at }),
            None => Ok(()),
        }
    }
}

// The first rule that a task breaks, and the first node at which it does. For the rule of arcs, the place of the arc.
#[derive(Clone, Copy, Debug, PartialEq, Eq, Drop)]
pub struct Broken {
    pub rule: Rule,
    pub at: usize,
}
