// The calls of a controller. Each is turned away under the first of its checks that fails, and then nothing has changed; or it does
// what its definition says. `Kept` is all that is promised of a call, after any sequence of calls.
ghost use Rattle.std.specs.Prelude.{◌≡◌, ◌≤◌, [], Ok, Err};
ghost use Rattle.controller.specs.Calls.{Add, Remove, Retime, Admit, Release, OpenTick, CloseTick};
ghost use Rattle.controller.specs.Does.{Opened, History};
ghost use Rattle.controller.specs.Promise.{Kept, EqualAnswers, OnRefusal};
ghost use Rattle.controller.specs.declared.refusal.Refusal.TheVariants.{Cores};

use crate::precedence::precedence;
use crate::refusal::Refusal;
use crate::tables::Tables;
use order::Order;

// An order of precedence beside the tables that it rules.
#[derive(Drop)]
pub struct Controller<O: Order> {
    order: O,
    tables: Tables,
}

impl<O: Order + Drop> Controller<O> {
    // A controller with so many cores, 1 to 16, and no task.
    pub fn open(cores: u8, order: O) -> Result<Controller<O>, Refusal>
        ensures opened { elim result [ Ok c ↦ (c.order ≡ order) × Opened cores c.tables | Err e ↦ (e ≡ Cores) × (1 ≤ cores → cores ≤ 16 → ⊥) ] }
        ensures begins { elim result [ Ok c ↦ History (O.Order.means order) [] c.tables | Err e ↦ Unit {0} ] }
    {
        // a match: `ok_or` and `?` would move the tables, which are large, once each
        match Tables::new(cores) {
            Some(tables) => Ok(Controller { order, tables }),
            None => Err(Refusal::Cores),
        }
    }
}

impl<O: Order> Controller<O> {
    // Puts the task that the table describes into an empty slot, and answers its L and W.
    pub fn add(&mut self, slot: u8, table: &[u8]) -> Result<(u64, u64), Refusal>
        ensures kept { Kept (O.Order.means self.old.order) self.old.tables (Add slot table.now) result self.new.tables }
        ensures same { self.new.order ≡ self.old.order }
        ensures refused { OnRefusal result (self.new ≡ self.old) }
    {
        self.tables.add(slot, table)
    }

    // Empties a slot.
    pub fn remove(&mut self, slot: u8) -> Result<(), Refusal>
        ensures kept { Kept (O.Order.means self.old.order) self.old.tables (Remove slot) result self.new.tables }
        ensures same { self.new.order ≡ self.old.order }
        ensures refused { OnRefusal result (self.new ≡ self.old) }
    {
        self.tables.remove(slot)
    }

    // Gives a node another time, and answers the task's L and W.
    pub fn retime(&mut self, slot: u8, node: u8, time: u32) -> Result<(u64, u64), Refusal>
        ensures kept { Kept (O.Order.means self.old.order) self.old.tables (Retime slot node time) result self.new.tables }
        ensures same { self.new.order ≡ self.old.order }
        ensures refused { OnRefusal result (self.new ≡ self.old) }
    {
        self.tables.retime(slot, node, time)
    }

    // Admits the tasks: writes their least bounds by slot, 0 for an empty slot, and answers how many tasks there are.
    pub fn admit(&mut self, list: &mut [u32]) -> Result<u8, Refusal>
        ensures kept { Kept (O.Order.means self.old.order) self.old.tables (Admit list.old) (result, list.new) self.new.tables }
        ensures equal { EqualAnswers (O.Order.means self.old.order) self.old.tables list.old (result, list.new) }
        ensures same { self.new.order ≡ self.old.order }
        ensures refused { OnRefusal result ((self.new ≡ self.old) × (list.new ≡ list.old)) }
    {
        self.tables.may_admit(list)?;
        let bounds = self.tables.bounds_under(&self.order)?;
        Ok(self.tables.keep_bounds(bounds, list))
    }

    // Opens a job of the slot's task, and answers its bound.
    pub fn release(&mut self, slot: u8) -> Result<u32, Refusal>
        ensures kept { Kept (O.Order.means self.old.order) self.old.tables (Release slot) result self.new.tables }
        ensures same { self.new.order ≡ self.old.order }
        ensures refused { OnRefusal result (self.new ≡ self.old) }
    {
        self.tables.release(slot)
    }

    // Opens a tick: writes what each core runs, and answers how many are busy.
    pub fn open_tick(&mut self, list: &mut [u16]) -> Result<u8, Refusal>
        ensures kept { Kept (O.Order.means self.old.order) self.old.tables (OpenTick list.old) (result, list.new) self.new.tables }
        ensures same { self.new.order ≡ self.old.order }
        ensures refused { OnRefusal result ((self.new ≡ self.old) × (list.new ≡ list.old)) }
    {
        self.tables.may_tick(list)?;
        let ahead = precedence(&self.order, &self.tables.board);
        Ok(self.tables.keep_spots(&ahead, list))
    }

    // Closes the tick with an outcome byte for each core, and answers the slots whose jobs ended, slot s as bit s.
    pub fn close_tick(&mut self, outcomes: &[u8]) -> Result<u16, Refusal>
        ensures kept { Kept (O.Order.means self.old.order) self.old.tables (CloseTick outcomes.now) result self.new.tables }
        ensures same { self.new.order ≡ self.old.order }
        ensures refused { OnRefusal result (self.new ≡ self.old) }
    {
        self.tables.close_tick(outcomes)
    }
}
