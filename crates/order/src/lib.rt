// Orders of precedence between the jobs of different tasks.
#![tactic(auto)]

ghost use Rattle.std.specs.Prelude.{◌≡◌};
ghost use Rattle.order.specs.Laws.{Meaning, Orderly};
ghost use Rattle.order.specs.Orders.{fixed_order, open_order};
ghost use Rattle.std.proofs.Common.{rules};

mod slot;

pub use slot::Slot;

// What an order may know of a task.
#[derive(Clone, Copy, Debug, PartialEq, Eq, Drop)]
pub struct Party {
    pub slot: u8,
    pub period: u32,
    pub deadline: u32,
}

pub trait Order {
    // who goes ahead of whom, and how many at most
    ghost means: { Self → Meaning };

    fn ahead(&self, i: Party, k: Party, d: i64) -> bool
        ensures { result ≡ (means self.now).goes i k d };

    fn cap(&self, i: Party, k: Party, bound: u32) -> Option<u64>
        ensures { result ≡ (means self.now).most i k bound };

    ghost orderly: { (o : Self) → Orderly (means o).goes (means o).most };
}

// The smaller slot goes ahead.
#[derive(Clone, Copy, Debug, PartialEq, Eq, Drop)]
pub struct Fixed;

impl Order for Fixed {
    ghost means = { λ _. fixed_order };

    ghost orderly = { Prim.search rules };

    fn ahead(&self, i: Party, k: Party, _d: i64) -> bool {
        i.slot < k.slot
    }

    fn cap(&self, i: Party, k: Party, _bound: u32) -> Option<u64> {
        if i.slot < k.slot { None } else { Some(0) }
    }
}

// Every job goes ahead of every other.
#[derive(Clone, Copy, Debug, PartialEq, Eq, Drop)]
pub struct Open;

impl Order for Open {
    ghost means = { λ _. open_order };

    ghost orderly = { Prim.search rules };

    fn ahead(&self, _i: Party, _k: Party, _d: i64) -> bool {
        true
    }

    fn cap(&self, _i: Party, _k: Party, _bound: u32) -> Option<u64> {
        None
    }
}
