// What is proved of every job, each theorem as the promise of a function.
ghost use Rattle.jobs.specs.Statements.{Progress, Step, Close, BelowGreatest, EndedWhole, ReadyMayShare};

// A job that has not ended has a ready node.
pub fn progress_holds()
    ensures { Progress }
{}

// A node that is ready after a tick was ready before, or a node with an arc to it ended in the tick.
pub fn step_holds()
    ensures { Step }
{}

// Over a path of taken nodes that ends in a ready one, and over all nodes, a job has run less than some settling
// that keeps its picks has in times.
pub fn close_holds()
    ensures { Close }
{}

// So it has run less than the greatest length along the path, and less than the greatest total in all.
pub fn below_greatest_holds()
    ensures { BelowGreatest }
{}

// A job that has ended has ended every node that it took.
pub fn ended_whole_holds()
    ensures { EndedWhole }
{}

// Two nodes that are ready at the same time may share a tick: one settling takes both, and no path joins them.
pub fn ready_may_share_holds()
    ensures { ReadyMayShare }
{}
