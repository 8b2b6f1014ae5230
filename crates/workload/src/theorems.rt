// What is proved of every task, each theorem as the promise of a function.
ghost use Rattle.workload.specs.Example.{ExampleStands};
ghost use Rattle.workload.specs.Statements.{PathsSettle, LongestPathIsLength, OneGreatest, TasksNest};

// Every path of arcs is taken whole by some settling.
#[tactic(auto, using(crate::proofs::Paths::paths_settle_lem))]
pub fn paths_settle()
    ensures { PathsSettle }
{}

// So the greatest length is that of the longest path.
pub fn longest_path_is_length()
    ensures { LongestPathIsLength }
{}

// No two values are both the greatest.
#[tactic(auto, using(crate::proofs::Paths::one_greatest_lem))]
pub fn one_greatest()
    ensures { OneGreatest }
{}

// The nodes of every task are nested, as the functions of this crate require.
#[tactic(auto, using(crate::proofs::Nesting::tasks_nest_lem))]
pub fn tasks_nest()
    ensures { TasksNest }
{}

// A worked example: a task of greatest length 12 and greatest total 22.
#[tactic(auto, using(crate::proofs::Worked::example_stands_lem))]
pub fn example_stands()
    ensures { ExampleStands }
{}
