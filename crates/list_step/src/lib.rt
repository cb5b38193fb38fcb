// One call, carried out on a disc of either kind, and what its answer means for the calls after it (document
// 01, "Calls and their sector writes"; "The plain store", second paragraph). `store` counts on each call being
// a step of the definition.
// All functions here are inside the layers: where one has a `requires`, the callers have tested it.
#![tactic(auto)]

ghost use Rattle.std.specs.Prelude.{◌≡◌, ◌≤◌, min};
ghost use Rattle.model.specs.Disc.{disc as disc_of};
ghost use Rattle.model.specs.Lent.{lent};
ghost use Rattle.model.specs.Calls.{is_cut, answer_of, answer_of_opening};
ghost use Rattle.list_step.specs.Stepped.{answer_is, number_for, held_by, passed_by, calling_of, call_in, kind_after, Steps};

use model::{CUT, Cut, DONE, Opened, Record, Reply};
use refusal::Refusal;

// The kinds of the calls, in the order of their numbers from 0 on; any other number is an opening.
#[derive(Clone, Copy, PartialEq, Eq)]
pub enum Calling {
    SaveVirtual,
    FreeVirtual,
    Commit,
    SaveBlock,
    SavePacket,
    SparePacket,
    Open,
}

impl From<u32> for Calling {
    ghost from_gives = { λ k c. c ≡ calling_of k };

    fn from(number: u32) -> Calling {
        match number {
            0 => Calling::SaveVirtual,
            1 => Calling::FreeVirtual,
            2 => Calling::Commit,
            3 => Calling::SaveBlock,
            4 => Calling::SavePacket,
            5 => Calling::SparePacket,
            _ => Calling::Open,
        }
    }
}

// What one call that is not turned down comes to, a writing call or an opening.
#[derive(Clone, Copy, PartialEq, Eq)]
pub enum Answered {
    Done(Record),
    Cut,
    Opened(Opened),
}

// ---- what an answer means for the calls after it

// The record in force after it.
pub fn held_after(a: Result<Answered, Refusal>, held: Record) -> Record
    ensures { result ≡ held_by (answer_is a) held }
{
    match a {
        Ok(Answered::Done(r)) => r,
        Ok(Answered::Opened(o)) => o.handed,
        Ok(Answered::Cut) => held,
        Err(_) => held,
    }
}

// How many sectors the last opening passed over that was accepted.
pub fn passed_after(a: Result<Answered, Refusal>, n: u32) -> u32
    ensures { result ≡ passed_by (answer_is a) n }
{
    match a {
        Ok(Answered::Opened(o)) => o.passed,
        Ok(Answered::Done(_)) => n,
        Ok(Answered::Cut) => n,
        Err(_) => n,
    }
}

// Whether the call was cut.
#[tactic(auto, unfolding(model::specs::Calls::is_cut))]
pub fn is_cut(a: Result<Answered, Refusal>) -> bool
    ensures { result ≡ is_cut (answer_is a) }
{
    match a {
        Ok(Answered::Cut) => true,
        Ok(Answered::Done(_)) => false,
        Ok(Answered::Opened(_)) => false,
        Err(_) => false,
    }
}

// The number that is told of it.
pub fn number_for(a: Result<Answered, Refusal>) -> u32
    ensures { result ≡ number_for (answer_is a) }
{
    match a {
        Ok(Answered::Done(_)) => DONE,
        Ok(Answered::Opened(_)) => DONE,
        Ok(Answered::Cut) => CUT,
        Err(why) => u32::from(why),
    }
}

// The answer of a reply.
#[tactic(auto, unfolding(model::specs::Calls::answer_of))]
fn answer_of(r: Result<Reply, Refusal>) -> Result<Answered, Refusal>
    ensures { answer_is result ≡ answer_of r }
{
    match r {
        Ok(Reply::Done(held)) => Ok(Answered::Done(held)),
        Ok(Reply::Cut) => Ok(Answered::Cut),
        Err(why) => Err(why),
    }
}

// The answer of an opening.
#[tactic(auto, unfolding(model::specs::Calls::answer_of_opening))]
fn answer_of_opening(o: Result<Opened, Refusal>) -> Result<Answered, Refusal>
    ensures { answer_is result ≡ answer_of_opening o }
{
    match o {
        Ok(opened) => Ok(Answered::Opened(opened)),
        Err(why) => Err(why),
    }
}

// ---- a call as numbers

// The call that is carried out: after a cut an opening.
pub fn calling_after(down: bool, number: u32) -> Calling
    ensures { result ≡ calling_of (kind_after down number) }
{
    if down {
        return Calling::Open;
    }
    Calling::from(number)
}

// A number, or the limit where it is greater.
pub fn limited(n: u32, limit: usize) -> usize
    ensures { result ≡ min n limit }
{
    (n as usize).min(limit)
}

// ---- one call

// Carries out a call.
pub fn step(
    disc: &mut [u8],
    marks: &mut [u8],
    maps: &[u8],
    s: u32,
    l: u32,
    table: &mut [u32],
    held: Record,
    calling: Calling,
    number: u32,
    bytes: &[u8],
    cut: Cut,
) -> Result<Answered, Refusal>
    ensures { Steps (lent disc.old marks.old maps.now s l)
        table.old held (call_in calling number cut bytes.now)
        result (disc_of disc.new marks.new) table.new }
{
    match calling {
        Calling::SaveVirtual => answer_of(blocks::save_virtual(
            disc, marks, maps, s, l, table, held, number, bytes, cut,
        )),
        Calling::FreeVirtual => answer_of(blocks::free_virtual(
            disc, marks, maps, s, l, table, held, number,
        )),
        Calling::Commit => answer_of(blocks::commit(disc, marks, maps, s, l, table, held, cut)),
        Calling::SaveBlock => answer_of(blocks::save_block(
            disc, marks, maps, s, l, table, held, number, bytes, cut,
        )),
        Calling::SavePacket => answer_of(blocks::save_packet(
            disc, marks, maps, s, l, table, held, number, bytes, cut,
        )),
        Calling::SparePacket => answer_of(blocks::spare_packet(
            disc, marks, maps, s, l, table, held, number, bytes, cut,
        )),
        Calling::Open => answer_of_opening(blocks::open(disc, marks, maps, s, l, table)),
    }
}
