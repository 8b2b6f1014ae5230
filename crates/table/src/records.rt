// What a task table holds: one task's timing, its nodes and its arcs.

// The kinds of records in a table.
#[derive(Clone, Copy, Debug, PartialEq, Eq, Drop)]
pub enum Kind {
    OfTask,
    OfNode,
    OfArc,
}

// A node's part in the branching of its task. An opening picks one of its branches when it ends; the closing whose
// mate it is waits for that branch. Any other node is plain.
#[derive(Clone, Copy, Debug, PartialEq, Eq, Drop)]
pub enum Role {
    Plain,
    Opening,
    Closing { mate: u8 },
}

// Where a node lies: at the top of its task, or in a branch of the opening that is its home.
#[derive(Clone, Copy, Debug, PartialEq, Eq, Drop)]
pub enum Region {
    Top,
    Branch { home: u8, branch: u8 },
}

// One piece of a task's work. Its time is the most ticks that it may run.
#[derive(Clone, Copy, Debug, PartialEq, Eq, Drop)]
pub struct Node {
    pub role: Role,
    pub region: Region,
    pub time: u32,
}

// The node `to` waits for the node `from`. Nodes go by their numbers, from 0 as they come in the table.
#[derive(Clone, Copy, Debug, PartialEq, Eq, Drop)]
pub struct Arc {
    pub from: u8,
    pub to: u8,
}

// How many ticks apart a task's jobs are released at least, and how many ticks each may take, both at least 1.
#[derive(Clone, Copy, Debug, PartialEq, Eq, Drop)]
pub struct Timing {
    pub period: u32,
    pub deadline: u32,
}

// At most N items, in fixed memory: the first `len` of the items. No ArrayVec of the kit, which isn't Copy as a table is.
#[derive(Clone, Copy, Debug, PartialEq, Eq, Drop)]
pub struct FixedList<T, const N: usize> {
    pub items: [T; N],
    pub len: usize,
}

pub type NodeList = FixedList<Node, 64>;

pub type ArcList = FixedList<Arc, 256>;

// The records of a table.
#[derive(Clone, Copy, Debug, PartialEq, Eq, Drop)]
pub struct Table {
    pub timing: Timing,
    pub nodes: NodeList,
    pub arcs: ArcList,
}
