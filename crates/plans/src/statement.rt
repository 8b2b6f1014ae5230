// The statements of a plan, one to a line of words.
ghost use Rattle.std.specs.Prelude.{◌∷◌, codes};
ghost use Rattle.plans.specs.Parsed.{NamesSlot};
ghost use Rattle.plans.specs.Statements.{texts, told_table, Heard, Found, ReadAs, RegionSaid, TableSaid, Sits, Closes, NodeSaid};

use crate::numerals::{byte_in, ticks_in};
use crate::plan::Precedence;
use crate::wanted::Wanted;
use table::records::{Arc, Node, Region, Role, Timing};

// Where the table of a task is: in the records that follow, or in a file.
#[derive(Clone, Copy, Drop)]
pub enum Origin<'a> {
    Timed(Timing),
    Filed(&'a str),
}

#[derive(Clone, Copy, Drop)]
pub enum Statement<'a> {
    Cores(u8),
    Order(Precedence),
    Task {
        name: &'a str,
        slot: u8,
        origin: Origin<'a>,
    },
    OfNode(Node),
    OfArc(Arc),
}

fn cores_statement<'a>(words: &[&'a str]) -> Result<Statement<'a>, Wanted>
    ensures { ReadAs (codes "cores" ∷ texts words.now) result }
{
    let [word] = words else {
        return Err(Wanted::CoresLine);
    };
    let cores = byte_in(word, 255).ok_or(Wanted::CoreCount)?;
    Ok(Statement::Cores(cores))
}

fn order_statement<'a>(words: &[&'a str]) -> Result<Statement<'a>, Wanted>
    ensures { ReadAs (codes "order" ∷ texts words.now) result }
{
    match words {
        ["fixed"] => Ok(Statement::Order(Precedence::Fixed)),
        ["open"] => Ok(Statement::Order(Precedence::Open)),
        _ => Err(Wanted::OrderLine),
    }
}

// A task's period and deadline, or its file.
fn origin_in<'a>(words: &[&'a str]) -> Result<Origin<'a>, Wanted>
    ensures { Heard told_table (TableSaid (texts words.now)) result }
{
    match words {
        ["file", name] => Ok(Origin::Filed(name)),
        ["period", period, "deadline", deadline] => {
            let period = ticks_in(period).ok_or(Wanted::Period)?;
            let deadline = ticks_in(deadline).ok_or(Wanted::Deadline)?;
            Ok(Origin::Timed(Timing { period, deadline }))
        }
        _ => Err(Wanted::Table),
    }
}

fn task_statement<'a>(words: &[&'a str]) -> Result<Statement<'a>, Wanted>
    ensures { ReadAs (codes "task" ∷ texts words.now) result }
{
    let [name, at, number, rest @ ..] = words else {
        return Err(Wanted::TaskLine);
    };
    if *at != "slot" {
        return Err(Wanted::SlotWord);
    }
    let slot = byte_in(number, 15).ok_or(Wanted::Slot)?;
    let origin = origin_in(rest)?;
    Ok(Statement::Task { name, slot, origin })
}

// Where a node lies: nothing for the top, or a branch.
fn region_in(words: &[&str]) -> Option<Region>
    ensures { Found (RegionSaid (texts words.now)) result }
{
    match words {
        [] => Some(Region::Top),
        ["in", home, "branch", branch] => {
            let home = byte_in(home, 63)?;
            let branch = byte_in(branch, 255)?;
            Some(Region::Branch { home, branch })
        }
        _ => None,
    }
}

// A node of this role and time, and where it lies.
fn placed(role: Role, time: u32, words: &[&str]) -> Result<Node, Wanted>
    ensures { Heard (λ n. n) (Sits role time (texts words.now)) result }
{
    let region = region_in(words).ok_or(Wanted::Place)?;
    Ok(Node { role, region, time })
}

// A closing node of this time: the opening that it closes, and where it lies.
fn closing(time: u32, words: &[&str]) -> Result<Node, Wanted>
    ensures { Heard (λ n. n) (Closes time (texts words.now)) result }
{
    let ["of", mate, rest @ ..] = words else {
        return Err(Wanted::Opening);
    };
    let mate = byte_in(mate, 63).ok_or(Wanted::OpeningNumber)?;
    placed(Role::Closing { mate }, time, rest)
}

fn node_in(words: &[&str]) -> Result<Node, Wanted>
    ensures { Heard (λ n. n) (NodeSaid (texts words.now)) result }
{
    let [role, time, rest @ ..] = words else {
        return Err(Wanted::NodeLine);
    };
    let time = ticks_in(time).ok_or(Wanted::Time)?;
    match *role {
        "plain" => placed(Role::Plain, time, rest),
        "opening" => placed(Role::Opening, time, rest),
        "closing" => closing(time, rest),
        _ => Err(Wanted::Role),
    }
}

fn node_statement<'a>(words: &[&'a str]) -> Result<Statement<'a>, Wanted>
    ensures { ReadAs (codes "node" ∷ texts words.now) result }
{
    let node = node_in(words)?;
    Ok(Statement::OfNode(node))
}

fn arc_statement<'a>(words: &[&'a str]) -> Result<Statement<'a>, Wanted>
    ensures { ReadAs (codes "arc" ∷ texts words.now) result }
{
    let [from, to] = words else {
        return Err(Wanted::ArcLine);
    };
    let from = byte_in(from, 255).ok_or(Wanted::ArcEnds)?;
    let to = byte_in(to, 255).ok_or(Wanted::ArcEnds)?;
    Ok(Statement::OfArc(Arc { from, to }))
}

// The slot of the task that the words begin, where they begin one.
pub(crate) fn slot_named(words: &[&str]) -> Option<u8>
    ensures { Found (NamesSlot (texts words.now)) result }
{
    let ["task", _, "slot", number, ..] = words else {
        return None;
    };
    byte_in(number, 15)
}

// The statement that the words of a line make; or what was expected.
pub fn statement_of<'a>(words: &[&'a str]) -> Result<Statement<'a>, Wanted>
    ensures { ReadAs (texts words.now) result }
{
    let [first, rest @ ..] = words else {
        return Err(Wanted::Statement);
    };
    match *first {
        "cores" => cores_statement(rest),
        "order" => order_statement(rest),
        "task" => task_statement(rest),
        "node" => node_statement(rest),
        "arc" => arc_statement(rest),
        _ => Err(Wanted::Keyword),
    }
}
