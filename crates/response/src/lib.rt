// The response-time theorem at the tasks of a plan: each function stands for statements of specs/, which its contract names.
#![tactic(auto)]

ghost use Rattle.response.specs.Statements.{EndsDecided, GraphsKeepLaws, PlansRespond};
ghost use Rattle.response.specs.Example.{FlashesPlanned, FlashesRun};

// The jobs of every lawful graph keep the laws that the timing argument asks of jobs, and are told to have ended just when they have.
pub fn graphs_keep_laws()
    ensures { GraphsKeepLaws × EndsDecided }
{}

// For every plan of lawful tasks under every order with the four laws, and bounds that solve it: in every run each job ends within its
// bound, an open job is younger than its bound, and when a job may be released the one before it has ended.
pub fn plans_respond()
    ensures { PlansRespond }
{}

// Three tasks on two cores meet what the theorem assumes, and have a run in which a job that had to wait ends exactly at its bound.
pub fn example_runs()
    ensures { FlashesPlanned × FlashesRun }
{}
