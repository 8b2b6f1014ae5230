// Runs ticks of the example tasks and prints what each core runs and what came of it, for the gate to compare.
#![tactic(auto)]

use dispatch::board::Board;
use dispatch::job::Job;
use dispatch::spot::write_spots;
use sets::bit_set::BitSet;
use std::fs;
use task::Task;

// The slots from one on.
fn slots_from(slot: usize) -> BitSet {
    BitSet::select(16, |k| slot <= k)
}

// The smaller slot goes ahead.
fn fixed_order() -> [BitSet; 16] {
    std::array::from_fn(slots_from)
}

// Every job goes ahead of every other.
fn open_order() -> [BitSet; 16] {
    [slots_from(0); 16]
}

// Opens a tick on as many cores as there are outcomes, prints what they run as slot.node, and closes it.
fn tick(
    rt: &HostRuntime,
    board: &mut Board,
    ahead: &[BitSet; 16],
    outcomes: &[u8],
) -> anyhow::Result<()> {
    let cores = outcomes.len().min(16);
    let placing = board.place(ahead, cores as u8);
    let mut list = [0; 16];
    write_spots(&placing.spots, cores as u8, &mut list);
    print!(rt; "  {} busy:", placing.busy)?;
    for number in &list[..cores] {
        if *number == 65_535 {
            print!(rt; " idle")?;
        } else {
            print!(rt; " {}.{}", *number / 256, *number % 256)?;
        }
    }
    let told = &outcomes[..cores];
    match board.try_close(&placing.spots, told) {
        Ok(ended) => println!(rt; "; ended {ended}")?,
        Err(core) => println!(rt; "; wrong on core {core}")?,
    }
    Ok(())
}

// One task on one core, and that it goes on for no longer than its time.
fn alone(rt: &HostRuntime, lamp: Task) -> anyhow::Result<()> {
    println!(rt; "lamp alone on one core: five ticks on, a sixth is wrong, then it ends")?;
    let mut board = Board::new();
    board.tasks[0] = Some(lamp);
    board.jobs[0] = Some(Job::new());
    for _ in 0..6 {
        tick(rt, &mut board, &fixed_order(), &[0])?;
    }
    tick(rt, &mut board, &fixed_order(), &[2])?;
    tick(rt, &mut board, &fixed_order(), &[1])?;
    tick(rt, &mut board, &fixed_order(), &[1])
}

// The conditional task on two cores, with the outcomes tick by tick.
fn on_two(rt: &HostRuntime, splice: Task, script: &[[u8; 2]]) -> anyhow::Result<()> {
    let mut board = Board::new();
    board.tasks[3] = Some(splice);
    board.jobs[3] = Some(Job::new());
    for outcomes in script {
        tick(rt, &mut board, &fixed_order(), outcomes)?;
    }
    Ok(())
}

// A job that goes ahead takes the core from another, which goes on with its node afterwards; where neither goes ahead,
// the node that was on the core keeps it.
fn preempted(
    rt: &HostRuntime,
    lamp: Task,
    splice: Task,
    ahead: &[BitSet; 16],
) -> anyhow::Result<()> {
    let mut board = Board::new();
    board.tasks[0] = Some(lamp);
    board.tasks[1] = Some(splice);
    board.jobs[1] = Some(Job::new());
    tick(rt, &mut board, ahead, &[1])?;
    tick(rt, &mut board, ahead, &[0])?;
    board.jobs[0] = Some(Job::new());
    tick(rt, &mut board, ahead, &[0])?;
    tick(rt, &mut board, ahead, &[1])?;
    for _ in 0..9 {
        tick(rt, &mut board, ahead, &[0])?;
    }
    tick(rt, &mut board, ahead, &[1])
}

// Sixteen jobs on sixteen cores.
fn sixteen(rt: &HostRuntime, lamp: Task) -> anyhow::Result<()> {
    println!(rt; "sixteen lamps on sixteen cores")?;
    let mut board = Board {
        tasks: [Some(lamp); 16],
        jobs: [Some(Job::new()); 16],
    };
    tick(rt, &mut board, &open_order(), &[0; 16])?;
    tick(
        rt,
        &mut board,
        &fixed_order(),
        &[1, 0, 0, 0, 0, 0, 0, 0, 0, 0, 0, 0, 0, 0, 0, 1],
    )?;
    tick(
        rt,
        &mut board,
        &fixed_order(),
        &[1, 1, 1, 1, 1, 1, 1, 1, 1, 1, 1, 1, 1, 1, 0, 0],
    )
}

// The task in a file; none, which is told, where it describes none.
fn task_in(rt: &HostRuntime, name: &str) -> anyhow::Result<Option<Task>> {
    let bytes = fs::read(rt, name)?;
    let Ok(task) = Task::read(bytes.as_slice()) else {
        println!(rt; "{name} is no task")?;
        return Ok(None);
    };
    Ok(Some(task))
}

fn main(rt: HostRuntime) -> anyhow::Result<()> {
    let Some(lamp) = task_in(&rt, "lamp.table")? else {
        return Ok(());
    };
    let Some(splice) = task_in(&rt, "splice.table")? else {
        return Ok(());
    };
    alone(&rt, lamp)?;
    println!(rt; "splice on two cores: no third branch, nothing of an idle core, then branch 0")?;
    on_two(
        &rt,
        splice,
        &[[3, 0], [1, 1], [1, 0], [0, 0], [1, 0], [1, 0], [0, 0]],
    )?;
    println!(rt; "splice on two cores, branch 1")?;
    on_two(
        &rt,
        splice,
        &[[2, 0], [1, 0], [0, 1], [1, 0], [1, 0], [1, 0], [1, 0]],
    )?;
    println!(rt; "splice on one core, lamp released in its third tick, fixed order")?;
    preempted(&rt, lamp, splice, &fixed_order())?;
    println!(rt; "the same, open order")?;
    preempted(&rt, lamp, splice, &open_order())?;
    sixteen(&rt, lamp)
}
