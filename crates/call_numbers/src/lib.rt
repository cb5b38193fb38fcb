// A record, a cut, an answer and a forecast as the numbers that C lends and is given (document 01, "Calls and their
// sector writes"; "Why a call is turned down").
// All functions here are inside the layers: where one has a `requires`, the exported calls have tested it.
#![tactic(auto)]

ghost use Rattle.std.specs.Prelude.{◌≡◌, [], ◌∷◌, length};
ghost use Rattle.refusal.specs.Number.{number_of, answer_number};
ghost use Rattle.model.specs.Disc.{disc as disc_of};
ghost use Rattle.model.specs.Examine.{setting};
ghost use Rattle.model.specs.Told.{reply_number, forecast_number};
ghost use Rattle.call_numbers.specs.Numbers.{effect_of, cut_of, record_of, numbers_of, record_after, record_opened, forecast_after, length_refusal};

use model::{CUT, Cut, DONE, Effect, Forecast, Opened, Record, Reply};
use refusal::Refusal;

// The numbers of a record, and the place of each.
pub const RECORD: usize = 5;

const KIND_AT: usize = 0;

const COUNT_AT: usize = 1;

const NEXT_AT: usize = 2;

const LAST_AT: usize = 3;

const PASSED_AT: usize = 4;

// The numbers of a forecast.
pub const FORECAST: usize = 3;

// The kinds.
pub const WRITE_ONCE: u32 = 0;

pub const REWRITABLE: u32 = 1;

// The effects of a cut; any other number is whole.
const OLD: u32 = 0;

const UNREADABLE: u32 = 1;

// ---- cuts

// The effect of a number.
fn effect_of(x: u32) -> Effect
    ensures { result ≡ effect_of x }
{
    match x {
        OLD => Effect::Old,
        UNREADABLE => Effect::Unreadable,
        _ => Effect::Whole,
    }
}

// The cut at a write.
pub fn cut_of(at: u32, x: u32) -> Cut
    ensures { result ≡ cut_of at x }
{
    Cut {
        at,
        effect: effect_of(x),
    }
}

// ---- what a call returns

// The number of an answer that has no number of its own: an opening's, a reading's, a making's.
pub fn number_of<T>(answer: &Result<T, Refusal>) -> u32
    ensures { result ≡ answer_number answer.now }
{
    match answer {
        Ok(_) => DONE,
        Err(why) => u32::from(*why),
    }
}

// The number of a writing call's reply.
pub fn number_of_reply(r: Result<Reply, Refusal>) -> u32
    ensures { result ≡ reply_number r }
{
    match r {
        Ok(Reply::Done(_)) => DONE,
        Ok(Reply::Cut) => CUT,
        Err(why) => u32::from(why),
    }
}

// ---- the record

// The record of five lent numbers.
pub fn read_record(kept: &[u32]) -> Record
    requires { length kept.now ≡ 5 }
    ensures { result ≡ record_of kept.now }
{
    let kind = kept[KIND_AT];
    match kind {
        WRITE_ONCE => Record::WriteOnce {
            entries: kept[COUNT_AT],
            next: kept[NEXT_AT],
            last: kept[LAST_AT],
        },
        REWRITABLE => Record::Rewritable {
            entries: kept[COUNT_AT],
            sequence: kept[NEXT_AT],
        },
        _ => Record::WriteOnce {
            entries: 0,
            next: 0,
            last: 0,
        },
    }
}

// Puts a record and the sectors passed over into the five lent numbers.
pub fn put_record(kept: &mut [u32], held: Record, passed: u32)
    requires { length kept.old ≡ 5 }
    ensures { kept.new ≡ numbers_of held passed }
{
    kept[PASSED_AT] = passed;
    match held {
        Record::WriteOnce {
            entries,
            next,
            last,
        } => {
            kept[KIND_AT] = WRITE_ONCE;
            kept[COUNT_AT] = entries;
            kept[NEXT_AT] = next;
            kept[LAST_AT] = last;
        }
        Record::Rewritable { entries, sequence } => {
            kept[KIND_AT] = REWRITABLE;
            kept[COUNT_AT] = entries;
            kept[NEXT_AT] = sequence;
            kept[LAST_AT] = 0;
        }
    }
}

// What a writing call leaves in them.
pub fn keep_record(kept: &mut [u32], r: Result<Reply, Refusal>)
    requires { length kept.old ≡ 5 }
    ensures { kept.new ≡ record_after r kept.old }
{
    match r {
        Ok(Reply::Done(held)) => {
            let passed = kept[PASSED_AT];
            put_record(kept, held, passed);
        }
        Ok(Reply::Cut) => {}
        Err(_) => {}
    }
}

// What an opening leaves in them.
pub fn keep_opened(kept: &mut [u32], o: Result<Opened, Refusal>)
    requires { length kept.old ≡ 5 }
    ensures { kept.new ≡ record_opened o kept.old }
{
    if let Ok(Opened { handed, passed }) = o {
        put_record(kept, handed, passed);
    }
}

// ---- a forecast

// Puts its numbers into a lent result.
fn put_three(res: &mut [u32], a: u32, b: u32, c: u32)
    requires { length res.old ≡ 3 }
    ensures { res.new ≡ a ∷ b ∷ c ∷ [] }
{
    res[0] = a;
    res[1] = b;
    res[2] = c;
}

// What a forecast leaves there, and the number that is returned.
pub fn tell_forecast(res: &mut [u32], f: Result<Forecast, Refusal>) -> u32
    requires { length res.old ≡ 3 }
    ensures value { result ≡ forecast_number f }
    ensures res_after { res.new ≡ forecast_after f res.old }
{
    match f {
        Ok(Forecast::Ends { next, entries }) => {
            put_three(res, DONE, next, entries);
            DONE
        }
        Ok(Forecast::Stops { index, why }) => {
            put_three(res, u32::from(why), index, 0);
            DONE
        }
        Err(why) => u32::from(why),
    }
}

// ---- lines 1 to 3

// The number of why a call on a disc is turned down that is lent a record or a result of another length than stated.
pub fn number_of_lengths(disc: &[u8], marks: &[u8], maps: &[u8], s: u32, l: u32) -> u32
    ensures { result ≡ number_of (length_refusal (setting maps.now s l) (disc_of disc.now marks.now)) }
{
    match examine::examine(disc, marks, maps, s, l, false) {
        Ok(_) => u32::from(Refusal::LentLength),
        Err(why) => u32::from(why),
    }
}
