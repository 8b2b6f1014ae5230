// What a controller holds.
ghost use Rattle.std.specs.Prelude.{◌≡◌, length};

use bounds::Plan;
use dispatch::board::Board;
use dispatch::spot::Spots;

// The tables of a controller. They are columns by slot and no array of rows: a call's definition says in one equation what it
// leaves of each column, and admission and the order take a column whole.
#[derive(Drop)]
pub struct Tables {
    // the cores, and by slot what its task asks of them
    pub(crate) plan: Plan,
    pub(crate) board: Board,
    // the ticks closed since the last release of the slot's task, as far as a longest period; none if it was never released
    pub(crate) waited: [Option<u32>; 16],
    // the bounds, while the tasks are admitted as they are
    pub(crate) bounds: Option<[u32; 16]>,
    // what each core runs, while a tick is open
    pub(crate) tick: Option<Spots>,
    ghost sized: { (length board.tasks ≡ 16) × (length board.jobs ≡ 16) × (length waited ≡ 16) },
}
