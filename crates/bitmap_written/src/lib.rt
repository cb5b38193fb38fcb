// Blocks taken and given back, the tag's CRC and checksum renewed and its CRC length kept (02, slip 10).
// The layers above may count on `take` and `give_back`, calls that answer for any bytes, and on the propositions of
// specs/Promises.antt.
#![tactic(auto)]

ghost use Rattle.std.specs.Prelude.{◌≡◌, ℕ, ◌+◌, ◌-◌, ◌*◌, ◌^◌, ◌≤◌, ◌<◌, length, get_or};
ghost use Rattle.fields.specs.Number.{field};
ghost use Rattle.tag.specs.Sound.{renewed};
ghost use Rattle.bitmap.specs.Bits.{bit_at};
ghost use Rattle.bitmap.specs.State.{state_bit};
ghost use Rattle.bitmap_written.specs.Changed.{changed};
ghost use Rattle.bitmap_written.specs.Written.{run_fits, run_verdict, run_after, take_verdict, after_taking, give_verdict, after_giving};

use bitmap::{BITS_AT, BYTE, Bitmap, State};
use refusal::Refusal;

// A byte of ones.
const ONES: u8 = 255;

// ---- bits

// The weights of the bits of a byte from `low` up to `high`.
fn ones_between(low: usize, high: usize) -> u8
    requires { (low ≤ high) × (high ≤ 8) }
    ensures { result ≡ 2 ^ high - 2 ^ low }
{
    ((1u16 << high) - (1u16 << low)) as u8
}

// A byte with a row of bits given this state, all of which have the other.
fn moved(byte: u8, ones: u8, state: State) -> u8
    requires { (state_bit state ≡ 0 → ones ≤ byte) × (state_bit state ≡ 1 → byte + ones < 256) }
    ensures { (state_bit state ≡ 0 → result ≡ byte - ones) × (state_bit state ≡ 1 → result ≡ byte + ones) }
{
    match state {
        State::Allocated => byte - ones,
        State::Free => byte + ones,
    }
}

// Gives a run of blocks this state, all of which have the other, by the byte.
// The new form is no plainer: in a struct with the bytes the blocks' state is no invariant, since it is what is written.
fn change_bits(b: &mut [u8], state: State, first: usize, count: usize)
    requires { (192 + (first + count) ≤ 8 * length b.old) × (first + count < 4294967296)
        × ((i : ℕ) → first ≤ i → i < first + count → bit_at b.old i ≡ 1 - state_bit state) }
    ensures { b.new ≡ changed b.old first count (state_bit state) }
{
    let end = first + count;
    let mut s = first;
    // The new form is no plainer: each step is computed, and counts no index.
    while s < end {
        let low = s % BYTE;
        let high = BYTE.min(low + (end - s));
        let at = BITS_AT + s / BYTE;
        b[at] = moved(b[at], ones_between(low, high), state);
        s = s - low + high;
    }
}

// A byte whose blocks are all in this state.
fn whole_byte(state: State) -> u8
    ensures { result ≡ 255 * state_bit state }
{
    match state {
        State::Allocated => 0,
        State::Free => ONES,
    }
}

// Gives the blocks of whole bytes this state, all of which have the other.
fn fill(b: &mut [u8], state: State, q: usize, n: usize)
    requires { (24 + (q + n) ≤ length b.old) × (q + n < 4294967296)
        × ((i : ℕ) → 8 * q ≤ i → i < 8 * (q + n) → bit_at b.old i ≡ 1 - state_bit state)
        × ((k : ℕ) → get_or b.old k 0 < 256) }
    ensures { b.new ≡ changed b.old (8 * q) (8 * n) (state_bit state) }
{
    let at = BITS_AT + q;
    b[at..at + n].fill(whole_byte(state));
}

// Gives a run of blocks this state, all of which have the other: bits up to the first whole byte, whole bytes, and the bits left.
fn change(b: &mut [u8], state: State, first: usize, count: usize)
    requires { (192 + (first + count) ≤ 8 * length b.old) × (first + count < 4294967296)
        × ((i : ℕ) → first ≤ i → i < first + count → bit_at b.old i ≡ 1 - state_bit state) }
    ensures { b.new ≡ changed b.old first count (state_bit state) }
{
    let q = first.div_ceil(BYTE);
    let end = first + count;
    if end < BYTE * q + BYTE {
        change_bits(b, state, first, count);
        return;
    }
    let whole = (end - BYTE * q) / BYTE;
    change_bits(b, state, first, BYTE * q - first);
    fill(b, state, q, whole);
    let last = BYTE * (q + whole);
    change_bits(b, state, last, end - last);
}

// Gives a run of blocks this state, all of which have the other, and renews the tag.
fn turn_run(b: &mut [u8], state: State, first: usize, count: usize)
    requires { (16 + field b.old 10 2 ≤ length b.old) × (192 + (first + count) ≤ 8 * length b.old) × (first + count < 4294967296)
        × ((i : ℕ) → first ≤ i → i < first + count → bit_at b.old i ≡ 1 - state_bit state) }
    ensures { b.new ≡ renewed (changed b.old first count (state_bit state)) }
{
    change(b, state, first, count);
    tag::renew(b);
}

// ---- the calls

// Whether a run is of some length, ends by L, and all of it is in this state.
#[tactic(auto, unfolding(crate::specs::Written::run_fits))]
fn run_fits(bitmap: Bitmap<'_>, first: usize, count: usize, state: State) -> bool
    requires { (first < 4294967296) × (count < 4294967296) }
    ensures { result ≡ run_fits bitmap.entry.bytes.now bitmap.entry.len first count (state_bit state) }
{
    let end = first + count;
    count != 0 && end <= bitmap.len && bitmap.next_in(state.other(), first, end) == end
}

// Why a run in this state may not be given the other: lines 31, 12 and 32. It writes nothing.
fn judge(b: &[u8], l: u32, first: u32, count: u32, state: State) -> Result<(), Refusal>
    ensures { result ≡ run_verdict b.now l first count (state_bit state) }
{
    let bitmap = Bitmap::new(b, l)?;
    if l <= first {
        return Err(Refusal::NumberOutside);
    }
    if !run_fits(bitmap, first as usize, count as usize, state) {
        return Err(Refusal::WrongRun);
    }
    Ok(())
}

// Gives a run of blocks in this state the other, or says why not.
fn turn(b: &mut [u8], l: u32, first: u32, count: u32, state: State) -> Result<(), Refusal>
    ensures value { result ≡ run_verdict b.old l first count (state_bit state) }
    ensures b_after { b.new ≡ run_after b.old l first count (state_bit state) }
{
    judge(b, l, first, count, state)?;
    turn_run(b, state.other(), first as usize, count as usize);
    Ok(())
}

// Takes a run of free blocks, or says why not.
pub fn take(b: &mut [u8], l: u32, first: u32, count: u32) -> Result<(), Refusal>
    ensures value { result ≡ take_verdict b.old l first count }
    ensures b_after { b.new ≡ after_taking b.old l first count }
{
    turn(b, l, first, count, State::Free)
}

// Gives a run of allocated blocks back, or says why not.
pub fn give_back(b: &mut [u8], l: u32, first: u32, count: u32) -> Result<(), Refusal>
    ensures value { result ≡ give_verdict b.old l first count }
    ensures b_after { b.new ≡ after_giving b.old l first count }
{
    turn(b, l, first, count, State::Allocated)
}
