// Callers of a controller that conclude, from the contracts of its calls alone, that every job of their own sequence of calls is in time.
#![tactic(auto)]

ghost use Rattle.std.specs.Prelude.{List, Ok, Err};
ghost use Rattle.controller.specs.Calls.{Event};
ghost use Rattle.controller.specs.Does.{History};
ghost use Rattle.usage.specs.Reached.{InTimeAt};

use controller::{Controller, Refusal};
use order::Order;

// Releases a task and runs one tick, whatever each call answers. What led to the controller leads on, and every job is in time.
pub fn frame<O: Order>(
    scanner: &mut Controller<O>,
    slot: u8,
    cores: &mut [u16],
    outcomes: &[u8],
) -> Result<u16, Refusal>
    ensures { (h : List Event) → History (O.Order.means scanner.old.order) h scanner.old.tables → InTimeAt (O.Order.means scanner.old.order) scanner.new.tables }
{
    let _ = scanner.release(slot);
    let _ = scanner.open_tick(cores);
    scanner.close_tick(outcomes)
}

// A scanner from its opening on: a task enters slot 0 and is admitted, whatever these calls answer.
pub fn first_reel<O: Order + Drop>(
    cores: u8,
    order: O,
    table: &[u8],
    bounds: &mut [u32],
) -> Result<Controller<O>, Refusal>
    ensures { elim result [ Ok c ↦ InTimeAt (O.Order.means order) c.tables | Err e ↦ Unit {0} ] }
{
    let mut scanner = Controller::open(cores, order)?;
    let _ = scanner.add(0, table);
    let _ = scanner.admit(bounds);
    Ok(scanner)
}
