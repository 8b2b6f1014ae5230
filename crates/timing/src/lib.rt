// The response-time theorem: each function stands for statements of specs/, which its contract names.
#![tactic(auto)]

ghost use Rattle.timing.specs.Window.{WindowBounded, AheadBounded};
ghost use Rattle.timing.specs.Statements.{AllRespond};
ghost use Rattle.timing.specs.Example.{ExampleBounded, ExampleRuns};
ghost use Rattle.timing.specs.Freely.{AllRespondFreely, ExampleRespondsFreely, ExampleRunsFreely};

// What the jobs of one task use of the cores in a window, all of them and those that go ahead of another job.
pub fn window_holds()
    ensures { WindowBounded × AheadBounded }
{}

// For jobs of any state S and outcome O: in every run, under every order that keeps its laws, each job ends within its bound, and before the
// next one of its task is released; where a tick brings outcomes that are allowed, and where it may bring any.
pub fn response_holds<S, O>()
    ensures allowed { AllRespond S O }
    ensures free { AllRespondFreely S O }
{}

// Two tasks on two cores meet what the theorem assumes, so it holds of them, and have a run in which each job ends exactly at its bound.
pub fn example_holds()
    ensures allowed { ExampleBounded × ExampleRuns }
    ensures free { ExampleRespondsFreely × ExampleRunsFreely }
{}
