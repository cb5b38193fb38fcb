// The space bitmap of ECMA-167 4/14.12 (02, slip 10): whether lent bytes are that of L blocks, the state of its blocks, and
// how many are free. The layers above may count on `fits`, which is line 31, on `Bitmap`, a view of bytes that it lets pass,
// on its two scans, and on `count`, a call that answers for any bytes.
#![tactic(auto)]

ghost use Rattle.std.specs.Prelude.{◌≡◌, ℕ, ◌+◌, ◌-◌, ◌*◌, ◌^◌, ◌≤◌, ◌<◌, length, get_or, MatchResult, true, false};
ghost use Rattle.refusal.specs.declared.Refusal.TheVariants.{BitmapMalformed};
ghost use Rattle.bitmap.specs.Bits.{free_from};
ghost use Rattle.bitmap.specs.State.{state_bit};
ghost use Rattle.bitmap.specs.Formed.{tag_fits, bitmap_fits};
ghost use Rattle.bitmap.specs.Counted.{Counts};
ghost use Rattle.bitmap.specs.Scan.{Shows, Skipped, Back, FirstOf, LastOf};

use fields::Number;
use refusal::Refusal;

// Where the number of bits, the number of bytes and the bits stand.
const BIT_COUNT_AT: usize = 16;

const BYTE_COUNT_AT: usize = 20;

pub const BITS_AT: usize = 24;

// The tag's identifier, and the least length that its CRC may have.
const SPACE_BITMAP: u16 = 264;

const LEAST_CRC_LENGTH: usize = 8;

// The bits of a word, and of a byte.
pub const WORD: usize = 64;

pub const BYTE: usize = 8;

// The bytes of a word, and of the shortest bitmap that has one.
const WORD_BYTES: usize = 8;

const LEAST_WITH_WORD: usize = 32;

// A byte of ones.
const ONES: u64 = 255;

// ---- line 31

// Whether the tag is that of a space bitmap and right: of a tag only identifier, checksum and CRC are tested.
#[tactic(auto, unfolding(crate::specs::Formed::tag_fits))]
fn tag_fits(b: &[u8]) -> bool
    requires { 24 ≤ length b.now }
    ensures { result ≡ tag_fits b.now }
{
    let covered = usize::from(u16::read(b, tag::CRC_LENGTH_AT));
    u16::read(b, tag::IDENTIFIER_AT) == SPACE_BITMAP
        && LEAST_CRC_LENGTH <= covered
        && tag::TAG_BYTES + covered <= b.len()
        && tag::is_sound(b)
}

// Whether the lent bytes are a bitmap of L blocks; its CRC is looked at last.
#[tactic(auto, unfolding(crate::specs::Formed::bitmap_fits))]
pub fn fits(b: &[u8], l: u32) -> bool
    ensures { result ≡ bitmap_fits b.now l }
{
    if b.len() < BITS_AT {
        return false;
    }
    let bytes = u32::read(b, BYTE_COUNT_AT) as usize;
    u32::read(b, BIT_COUNT_AT) == l
        && l as usize <= BYTE * bytes
        && BITS_AT + bytes <= b.len()
        && tag_fits(b)
}

// ---- the state of blocks: inside the layers

// The state of a block.
#[derive(Clone, Copy)]
pub enum State {
    Allocated,
    Free,
}

impl State {
    // The other state.
    pub fn other(self) -> State
        ensures { state_bit result ≡ 1 - state_bit self }
    {
        match self {
            State::Allocated => State::Free,
            State::Free => State::Allocated,
        }
    }

    // Bits of the bitmap as bits with a one where the block is in this state; `all` has a one for each block.
    fn ones(self, bits: u64, all: u64) -> u64
        requires { bits ≤ all }
        ensures free { state_bit self ≡ 1 → result ≡ bits }
        ensures allocated { state_bit self ≡ 0 → result ≡ all - bits }
    {
        match self {
            State::Allocated => all - bits,
            State::Free => bits,
        }
    }

    // The word of 64 blocks none of which is in this state.
    fn none(self) -> u64
        ensures free { state_bit self ≡ 1 → result ≡ 0 }
        ensures allocated { state_bit self ≡ 0 → result ≡ 2 ^ 64 - 1 }
    {
        match self {
            State::Allocated => u64::MAX,
            State::Free => 0,
        }
    }
}

// Some bits in a row, lowest first: a one where the block is in the state asked for.
#[derive(Clone, Copy)]
pub struct Window {
    pub bits: u64,
    pub count: usize,
}

// Lent bytes, and how many blocks of theirs are looked at, each of which has its bit in them.
#[derive(Clone, Copy)]
pub struct Bitmap<'a> {
    pub bytes: &'a [u8],
    pub len: usize,
    pub ghost inside: { 192 + len ≤ 8 * length bytes.now },
    pub ghost few: { len < 4294967296 },
    pub ghost small: { (i : ℕ) → get_or bytes.now i 0 < 256 },
}

impl<'a> Bitmap<'a> {
    // The lent bytes as a bitmap of L blocks, which line 31 has to let pass.
    pub fn new(b: &'a [u8], l: u32) -> Result<Bitmap<'a>, Refusal>
        ensures { MatchResult result
            (λ bitmap. (bitmap.bytes.now ≡ b.now) × (bitmap.len ≡ l) × (bitmap_fits b.now l ≡ true))
            (λ why. (why ≡ BitmapMalformed) × (bitmap_fits b.now l ≡ false)) }
    {
        if !fits(b, l) {
            return Err(Refusal::BitmapMalformed);
        }
        Ok(Bitmap {
            bytes: b,
            len: l as usize,
        })
    }

    // The first blocks of it.
    pub fn up_to(self, len: usize) -> Bitmap<'a>
        requires { len ≤ self.len }
        ensures bytes { result.bytes.now ≡ self.entry.bytes.now }
        ensures len { result.len ≡ len }
    {
        Bitmap {
            bytes: self.bytes,
            len,
        }
    }

    // The bits from byte q of the bitmap on: 64 of them, or 8 near the end.
    pub fn look(self, state: State, q: usize) -> Window
        requires { 24 + q < length self.bytes.now }
        ensures { Shows self.entry.bytes.now (state_bit state) q result.count result.bits }
    {
        if self.bytes.len() - BITS_AT - q < WORD_BYTES {
            let byte = u64::from(self.bytes[BITS_AT + q]);
            return Window {
                bits: state.ones(byte, ONES),
                count: BYTE,
            };
        }
        let word = u64::read(self.bytes, BITS_AT + q);
        Window {
            bits: state.ones(word, u64::MAX),
            count: WORD,
        }
    }

    // From byte q of the bitmap on, past whole words in which no block below `to` is in this state.
    fn skip(self, state: State, q: usize, to: usize) -> usize
        requires { (to ≤ self.len) × (q < 4294967296) }
        ensures { Skipped self.entry.bytes.now (state_bit state) q to result }
    {
        let none = state.none();
        let words = to.saturating_sub(BYTE * q) / WORD;
        for i in 0..words {
            let at = q + WORD_BYTES * i;
            if u64::read(self.bytes, BITS_AT + at) != none {
                return at;
            }
        }
        q + WORD_BYTES * words
    }

    // The first block of a span in this state, or the span's end.
    pub fn next_in(self, state: State, from: usize, to: usize) -> usize
        requires { (to ≤ self.len) × (from ≤ to) }
        ensures { FirstOf self.entry.bytes.now (state_bit state) from to result }
    {
        let mut s = from;
        // The new form is no plainer: each step is computed, and counts no index.
        while s < to {
            let low = s % BYTE;
            let w = self.look(state, s / BYTE);
            let zeros = (w.bits >> low).trailing_zeros() as usize;
            if low + zeros < w.count {
                return to.min(s + zeros);
            }
            s = BYTE * self.skip(state, s / BYTE + w.count / BYTE, to);
        }
        to
    }

    // Where a window begins that holds block `last`, and as many before it as can be.
    pub fn back_from(self, last: usize) -> usize
        requires { last < self.len }
        ensures { Back (length self.entry.bytes.now) last result }
    {
        let top = last / BYTE;
        if self.bytes.len() < LEAST_WITH_WORD {
            return top;
        }
        top.saturating_sub(WORD_BYTES - 1)
    }

    // The end of the last block of a span in this state, or the span's start.
    pub fn last_in(self, state: State, from: usize, to: usize) -> usize
        requires { (to ≤ self.len) × (from ≤ to) }
        ensures { LastOf self.entry.bytes.now (state_bit state) from to result }
    {
        let mut e = to;
        // The new form is no plainer: each step is computed, and counts no index.
        while from < e {
            let q = self.back_from(e - 1);
            let w = self.look(state, q);
            let up = WORD + BYTE * q - e;
            let zeros = (w.bits << up).leading_zeros() as usize;
            if up + zeros < WORD {
                return from.max(e - zeros);
            }
            e = BYTE * q;
        }
        from
    }

    // How many blocks are free: by the word, by the byte, and the last bits.
    fn count_free(self) -> u32
        ensures { result ≡ free_from self.entry.bytes.now 0 self.entry.len }
    {
        let words = self.len / WORD;
        let bytes = self.len / BYTE;
        let mut free: u32 = 0;
        for i in 0..words {
            free += u64::read(self.bytes, BITS_AT + WORD_BYTES * i).count_ones();
        }
        for q in WORD_BYTES * words..bytes {
            free += self.bytes[BITS_AT + q].count_ones();
        }
        let left = self.len % BYTE;
        if left == 0 {
            return free;
        }
        free + (self.bytes[BITS_AT + bytes] % (1u8 << left)).count_ones()
    }
}

// ---- counting

// How many blocks are free.
pub fn count(b: &[u8], l: u32) -> Result<u32, Refusal>
    ensures { Counts b.now l result }
{
    Ok(Bitmap::new(b, l)?.count_free())
}
