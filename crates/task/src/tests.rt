use crate::held::Task;
use std::alloc::{AllocError, Global};
use std::test::Fail;

const PLAIN: u8 = 0;

const OPENING: u8 = 1;

const CLOSING: u8 = 2;

const NONE: u8 = 255;

// A table that is written record by record.
#[derive(Drop)]
struct Draft {
    bytes: Vec<u8>,
}

impl Draft {
    // Period and deadline 40.
    fn new(heap: Global) -> Result<Draft, AllocError> {
        let mut bytes = Vec::new(heap);
        bytes.extend_from_slice(&[12, 0, 1, 0, 40, 0, 0, 0, 40, 0, 0, 0])?;
        Ok(Draft { bytes })
    }

    fn node(&mut self, role: u8, home: u8, branch: u8, mate: u8) -> Result<(), AllocError> {
        self.bytes
            .extend_from_slice(&[12, 0, 2, 0, role, home, branch, mate, 6, 0, 0, 0])
    }

    fn plain(&mut self, home: u8, branch: u8) -> Result<(), AllocError> {
        self.node(PLAIN, home, branch, NONE)
    }

    fn arc(&mut self, from: u8, to: u8) -> Result<(), AllocError> {
        self.bytes.extend_from_slice(&[6, 0, 3, 0, from, to])
    }

    // The number of a refusal, and what it adds; 0 and 0 for a task that is taken.
    fn verdict(&self) -> (u8, usize) {
        match Task::read(self.bytes.as_slice()) {
            Ok(_) => (0, 0),
            Err(refusal) => (refusal.number(), refusal.added()),
        }
    }

    // How many nodes and arcs the graph has of a task that is taken; 0 and 0 for one that is refused.
    fn size(&self) -> (usize, usize) {
        match Task::read(self.bytes.as_slice()) {
            Ok(task) => (task.graph().nodes.len(), task.graph().arcs.len()),
            Err(_) => (0, 0),
        }
    }
}

// Node 0 opens a branch of one node and a branch with three nodes side by side, and node 7 closes them.
fn conditional(heap: Global) -> Result<Draft, AllocError> {
    let mut draft = Draft::new(heap)?;
    draft.node(OPENING, NONE, 0, NONE)?;
    draft.plain(0, 0)?;
    for _ in 2..7 {
        draft.plain(0, 1)?;
    }
    draft.node(CLOSING, NONE, 0, 0)?;
    for (from, to) in [
        (0, 1),
        (0, 2),
        (2, 3),
        (2, 4),
        (2, 5),
        (3, 6),
        (4, 6),
        (5, 6),
    ] {
        draft.arc(from, to)?;
    }
    draft.arc(1, 7)?;
    draft.arc(6, 7)?;
    Ok(draft)
}

#[test]
fn lawful_tasks_are_taken(rt: HostRuntime) -> Result<(), Fail> {
    let heap = rt.alloc();
    assert_eq!(rt; conditional(heap)?.verdict(), (0, 0));
    assert_eq!(rt; conditional(heap)?.size(), (8, 10));
    let mut nested = Draft::new(heap)?;
    nested.node(OPENING, NONE, 0, NONE)?;
    nested.node(OPENING, 0, 0, NONE)?;
    nested.node(OPENING, 1, 0, NONE)?;
    nested.plain(2, 0)?;
    nested.node(CLOSING, 1, 0, 2)?;
    nested.node(CLOSING, 0, 0, 1)?;
    nested.node(CLOSING, NONE, 0, 0)?;
    for v in 0..6 {
        nested.arc(v, v + 1)?;
    }
    assert_eq!(rt;
        nested.verdict(),
        (0, 0),
        "three blocks of one branch, one in another"
    );
    Ok(())
}

#[test]
fn a_chain_of_64_nodes(rt: HostRuntime) -> Result<(), Fail> {
    let mut chain = Draft::new(rt.alloc())?;
    for _ in 0..64 {
        chain.plain(NONE, 0)?;
    }
    for v in 0..63 {
        chain.arc(v, v + 1)?;
    }
    assert_eq!(rt; chain.verdict(), (0, 0));
    Ok(())
}

#[test]
fn homes_mates_and_branches(rt: HostRuntime) -> Result<(), Fail> {
    let heap = rt.alloc();
    let mut home = Draft::new(heap)?;
    home.plain(NONE, 0)?;
    home.plain(0, 0)?;
    assert_eq!(rt; home.verdict(), (7, 1), "a plain home");
    let mut mate = Draft::new(heap)?;
    mate.plain(NONE, 0)?;
    mate.node(CLOSING, NONE, 0, 0)?;
    assert_eq!(rt; mate.verdict(), (7, 2), "a plain mate");
    let mut open = Draft::new(heap)?;
    open.node(OPENING, NONE, 0, NONE)?;
    open.plain(0, 0)?;
    assert_eq!(rt; open.verdict(), (7, 2), "no closing");
    let mut skipped = Draft::new(heap)?;
    skipped.node(OPENING, NONE, 0, NONE)?;
    skipped.plain(0, 1)?;
    skipped.node(CLOSING, NONE, 0, 0)?;
    assert_eq!(rt; skipped.verdict(), (7, 3), "no branch 0");
    Ok(())
}

#[test]
fn arcs_ends_and_wires(rt: HostRuntime) -> Result<(), Fail> {
    let heap = rt.alloc();
    let mut twice = conditional(heap)?;
    twice.arc(0, 1)?;
    assert_eq!(rt; twice.verdict(), (7, 4), "an arc twice");
    let mut across = conditional(heap)?;
    across.arc(0, 7)?;
    assert_eq!(rt; across.verdict(), (7, 4), "from an opening to its closing");
    let mut apart = Draft::new(heap)?;
    apart.plain(NONE, 0)?;
    apart.plain(NONE, 0)?;
    assert_eq!(rt; apart.verdict(), (7, 5), "two first units");
    let mut loose = Draft::new(heap)?;
    loose.node(OPENING, NONE, 0, NONE)?;
    loose.plain(0, 0)?;
    loose.node(CLOSING, NONE, 0, 0)?;
    assert_eq!(rt; loose.verdict(), (7, 6), "no entry arc");
    let mut entered = conditional(heap)?;
    entered.arc(0, 3)?;
    assert_eq!(rt;
        entered.verdict(),
        (7, 6),
        "an entry arc past the first unit"
    );
    Ok(())
}
