// What is proved of placing and of closing, each theorem as the promise of a function.
ghost use Rattle.dispatch.specs.Statements.{OnePlacing, Conserving, PlacesOnce, OneClosing, RightIsAllowed};

// At most one placing is right.
pub fn one_placing_holds()
    ensures { OnePlacing }
{}

// Where the jobs are in order, a ready node without a core means that all cores are busy with jobs that go ahead of its own, or with it.
pub fn conserving_holds()
    ensures { Conserving }
{}

// The cores run ready nodes, each once.
pub fn places_once_holds()
    ensures { PlacesOnce }
{}

// What is left after a tick is one thing only.
pub fn one_closing_holds()
    ensures { OneClosing }
{}

// Right outcomes of a placed tick are an allowed tick of each open job.
pub fn right_is_allowed_holds()
    ensures { RightIsAllowed }
{}
