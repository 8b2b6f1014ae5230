// What holds of every plan, and of the worked ones.
ghost use Rattle.bounds.specs.Equation.{BoundsEnough, SameAnswer};
ghost use Rattle.bounds.specs.Cases.{CasesRight};

// Plans of the same numbers have the same answer under equal caps, and each has one at most.
pub fn same_answer()
    ensures { SameAnswer }
{}

// A solution leaves more core-ticks than are needed.
pub fn bounds_enough()
    ensures { BoundsEnough }
{}

// The worked plans have the answers told.
pub fn cases_right()
    ensures { CasesRight }
{}
