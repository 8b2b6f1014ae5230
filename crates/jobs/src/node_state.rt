// How far a job is with one of its nodes: not begun, the ticks that it has run, or the branch that it ended with,
// which is 0 unless the node is an opening.
#[derive(Clone, Copy, Debug, PartialEq, Eq, Drop)]
pub enum NodeState {
    Untouched,
    Running(u32),
    Ended(u8),
}
