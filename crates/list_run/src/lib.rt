// A lent list of calls, carried out one after the other on a disc of either kind (document 01, "The plain
// store", second paragraph). `run` opens the disc, hands each call what the last one left, and promises
// demand 3 of the whole list, and of each opening how many sectors it passes over at most (02, slip 12). It
// has no requires. It counts on `steps` for each call.
#![tactic(auto)]

ghost use Rattle.std.specs.Prelude.{◌≡◌, ◌+◌, ◌≤◌, length, set};
ghost use Rattle.model.specs.Disc.{disc as disc_of};
ghost use Rattle.model.specs.Examine.{setting};
ghost use Rattle.model.specs.Lent.{lent};
ghost use Rattle.list_step.specs.Stepped.{Steps};
ghost use Rattle.list_run.specs.Encoded.{call_at};
ghost use Rattle.list_run.specs.Listed.{mended_call};
ghost use Rattle.list_run.specs.Outcome.{CarriesOut, Runs};
ghost use Rattle.list_run.specs.Promise.{DemandMet, WaitMet};

use list_step::Answered;
use model::{Opened, Record};
use refusal::Refusal;

// The numbers of a call in the lent list.
const NUMBERS: usize = 6;

// ---- one call

// Carries out the call whose six numbers stand from `at` on, and after a cut an opening in its place. Inside
// the layers: the six numbers are there.
fn turn(
    disc: &mut [u8],
    marks: &mut [u8],
    maps: &[u8],
    s: u32,
    l: u32,
    table: &mut [u32],
    held: Record,
    down: bool,
    numbers: &[u32],
    at: usize,
    pool: &[u8],
) -> Result<Answered, Refusal>
    requires { at + 6 ≤ length numbers.now }
    ensures { Steps (lent disc.old marks.old maps.now s l)
        table.old held (mended_call down (call_at numbers.now pool.now at))
        result (disc_of disc.new marks.new) table.new }
{
    let calling = list_step::calling_after(down, numbers[at]);
    let number = numbers[at + 1];
    let cut = call_numbers::cut_of(numbers[at + 2], numbers[at + 3]);
    let from = list_step::limited(numbers[at + 4], pool.len());
    let count = list_step::limited(numbers[at + 5], pool.len() - from);
    let to = from + count;
    list_step::step(
        disc,
        marks,
        maps,
        s,
        l,
        table,
        held,
        calling,
        number,
        &pool[from..to],
        cut,
    )
}

// ---- the list

// Writes reply i, if there is a place for it.
fn tell(replies: &mut [u32], i: usize, n: u32)
    ensures { replies.new ≡ set replies.old i n }
{
    if i < replies.len() {
        replies[i] = n;
    }
}

// Carries out the calls of the list in turn, from the record that its opening handed back on.
fn carry(
    disc: &mut [u8],
    marks: &mut [u8],
    maps: &[u8],
    s: u32,
    l: u32,
    table: &mut [u32],
    handed: Record,
    skipped: u32,
    numbers: &[u32],
    pool: &[u8],
    replies: &mut [u32],
) -> Opened
    ensures { CarriesOut (lent disc.old marks.old maps.now s l)
        table.old handed skipped numbers.now pool.now replies.old
        (Ok result) (disc_of disc.new marks.new) table.new replies.new }
{
    let mut held = handed;
    let mut passed = skipped;
    let mut down = false;
    for i in 0..numbers.len() / NUMBERS {
        let answered = turn(
            disc,
            marks,
            maps,
            s,
            l,
            table,
            held,
            down,
            numbers,
            NUMBERS * i,
            pool,
        );
        tell(replies, i, list_step::number_for(answered));
        held = list_step::held_after(answered, held);
        passed = list_step::passed_after(answered, passed);
        down = list_step::is_cut(answered);
    }
    Opened {
        handed: held,
        passed,
    }
}

// Opens the disc and carries out the calls that are lent: six numbers each of `numbers`, with their bytes in
// `pool`. Each call's reply is told in `replies`, as far as they reach.
pub fn run(
    disc: &mut [u8],
    marks: &mut [u8],
    maps: &[u8],
    s: u32,
    l: u32,
    table: &mut [u32],
    numbers: &[u32],
    pool: &[u8],
    replies: &mut [u32],
) -> Result<Opened, Refusal>
    ensures runs { Runs (lent disc.old marks.old maps.now s l)
        table.old numbers.now pool.now replies.old
        result (disc_of disc.new marks.new) table.new replies.new }
    ensures demand_met { DemandMet (setting maps.now s l) (disc_of disc.old marks.old)
        table.old numbers.now pool.now
        result (disc_of disc.new marks.new) table.new }
    ensures wait_met { WaitMet (setting maps.now s l) (disc_of disc.old marks.old)
        table.old numbers.now pool.now result }
{
    let opened = blocks::open(disc, marks, maps, s, l, table)?;
    Ok(carry(
        disc,
        marks,
        maps,
        s,
        l,
        table,
        opened.handed,
        opened.passed,
        numbers,
        pool,
        replies,
    ))
}
