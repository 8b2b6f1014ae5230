use super::read;
use std::alloc::{AllocError, Global};
use std::test::Fail;

// One plain node of time 6, period 20, deadline 10.
const LAMP: [u8; 24] = [
    12, 0, 1, 0, 20, 0, 0, 0, 10, 0, 0, 0, 12, 0, 2, 0, 0, 255, 0, 255, 6, 0, 0, 0,
];

const ARC: [u8; 6] = [6, 0, 3, 0, 0, 1];

// The number and the offset of a refusal; 0 and 0 for a table that is read.
fn refusal(table: &[u8]) -> (u8, usize) {
    match read(table) {
        Ok(_) => (0, 0),
        Err(fault) => (fault.number(), fault.added()),
    }
}

// A task record, so many plain nodes, and so many arcs from node 0 to node 1.
fn table_of(heap: Global, nodes: usize, arcs: usize) -> Result<Vec<u8>, AllocError> {
    let mut table = Vec::new(heap);
    table.extend_from_slice(&LAMP[0..12])?;
    for _ in 0..nodes {
        table.extend_from_slice(&LAMP[12..24])?;
    }
    for _ in 0..arcs {
        table.extend_from_slice(&ARC)?;
    }
    Ok(table)
}

#[test]
fn the_smallest_table(rt: HostRuntime) -> Result<(), Fail> {
    let Ok(table) = read(&LAMP) else {
        return Err(Fail::new("refused"));
    };
    assert_eq!(rt; table.timing.period, 20);
    assert_eq!(rt; table.timing.deadline, 10);
    assert_eq!(rt; table.nodes.as_slice().len(), 1);
    assert_eq!(rt; table.arcs.as_slice().len(), 0);
    Ok(())
}

#[test]
fn cut_at_every_length(rt: HostRuntime) {
    for n in 0..12 {
        assert_eq!(rt; refusal(&LAMP[0..n]), (5, 0));
    }
    for n in 12..24 {
        assert_eq!(rt; refusal(&LAMP[0..n]), (5, 12));
    }
}

#[test]
fn times(rt: HostRuntime) {
    let mut table = LAMP;
    table[20] = 0;
    assert_eq!(rt; refusal(&table), (6, 12));
    table[22] = 1;
    assert_eq!(rt; refusal(&table), (6, 12));
    table[20] = 255;
    table[21] = 255;
    table[22] = 0;
    assert_eq!(rt; refusal(&table), (0, 0));
}

#[test]
fn out_of_turn(rt: HostRuntime) -> Result<(), Fail> {
    let heap = rt.alloc();
    let mut table = Vec::new(heap);
    table.extend_from_slice(&ARC)?;
    assert_eq!(rt; refusal(table.as_slice()), (5, 0));
    assert_eq!(rt; refusal(&LAMP[12..24]), (5, 0));
    table.clear();
    table.extend_from_slice(&LAMP[0..12])?;
    table.extend_from_slice(&LAMP)?;
    assert_eq!(rt; refusal(table.as_slice()), (5, 12));
    table.clear();
    table.extend_from_slice(&LAMP[0..12])?;
    table.extend_from_slice(&ARC)?;
    assert_eq!(rt; refusal(table.as_slice()), (5, 12));
    let mut longer = table_of(heap, 2, 1)?;
    longer.extend_from_slice(&LAMP[12..24])?;
    assert_eq!(rt; refusal(longer.as_slice()), (5, 42));
    Ok(())
}

#[test]
fn as_many_as_there_may_be(rt: HostRuntime) -> Result<(), Fail> {
    let heap = rt.alloc();
    assert_eq!(rt; refusal(table_of(heap, 64, 256)?.as_slice()), (0, 0));
    assert_eq!(rt;
        refusal(table_of(heap, 65, 0)?.as_slice()),
        (5, 12 + 64 * 12)
    );
    assert_eq!(rt;
        refusal(table_of(heap, 2, 257)?.as_slice()),
        (5, 36 + 256 * 6)
    );
    Ok(())
}
