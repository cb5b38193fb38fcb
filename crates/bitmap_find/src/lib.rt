// The free run of a wanted length that is nearest to a block (02, slip 10), 64 bits at a time.
// The layers above may count on `find`, a call that answers for any bytes.
#![tactic(auto)]

ghost use Rattle.std.specs.Prelude.{◌≡◌, ℕ, ◌+◌, ◌-◌, ◌*◌, ◌≤◌, ◌<◌, length, MatchOption};
ghost use Rattle.bitmap_find.specs.Nearest.{nearest, Nearest, Finds};
ghost use Rattle.bitmap_find.specs.Runs.{SomeBelow, Lowest, Highest, Clear, Folded};
ghost use Rattle.bitmap_find.specs.Rows.{FreeFrom, FirstOnes, RowIn, LastOnes};
ghost use Rattle.bitmap_find.specs.TopRows.{FreeTo, TopOnes, TopRow, OnesFrom};

use bitmap::{BYTE, Bitmap, State, WORD, Window};
use refusal::Refusal;

// The highest digit of a word.
const HIGHEST: usize = WORD - 1;

// How many blocks the search goes up and down at first, by how much more each time after, and the most at once.
const FIRST_STEP: usize = 512;

const STEP_GROWTH: usize = 8;

const MOST_STEP: usize = 1 << 30;

// ---- words of the bitmap

// A one wherever a row of so many ones begins.
fn fold(x: u64, wanted: usize) -> u64
    requires { (1 ≤ wanted) × (wanted ≤ 64) }
    ensures { Folded x wanted result }
{
    let mut y = x;
    let mut k: usize = 1;
    // The new form is no plainer: k doubles, and counts no index.
    while k < wanted {
        let more = k.min(wanted - k);
        y = y & (y >> more);
        k += more;
    }
    y
}

// The states of the blocks from s on, a one where free: as many as a word of the bitmap still holds.
fn free_from(bitmap: Bitmap<'_>, s: usize) -> Window
    requires { s < bitmap.len }
    ensures { FreeFrom bitmap.entry.bytes.now s result.count result.bits }
{
    let low = s % BYTE;
    let w = bitmap.look(State::Free, s / BYTE);
    Window {
        bits: w.bits >> low,
        count: w.count - low,
    }
}

// The states of the blocks that end at block e, a one where free, in the highest digits.
fn free_to(bitmap: Bitmap<'_>, e: usize) -> Window
    requires { (e ≤ bitmap.len) × (1 ≤ e) }
    ensures { FreeTo bitmap.entry.bytes.now e result.count result.bits }
{
    let q = bitmap.back_from(e - 1);
    let w = bitmap.look(State::Free, q);
    let n = e - BYTE * q;
    Window {
        bits: w.bits << (WORD - n),
        count: n,
    }
}

// How many ones a word begins with.
fn first_ones(x: u64) -> usize
    ensures { FirstOnes x result }
{
    x.trailing_ones() as usize
}

// How many ones in a row a word has from a digit on.
fn ones_from(x: u64, low: usize) -> usize
    requires { low < 64 }
    ensures { OnesFrom x low result }
{
    (x >> low).trailing_ones() as usize
}

// How many ones the highest digits of a word are.
fn top_ones(x: u64) -> usize
    ensures { TopOnes x result }
{
    x.leading_ones() as usize
}

// How many ones the first n digits of a word end with.
fn last_ones(x: u64, n: usize) -> usize
    requires { (1 ≤ n) × (n ≤ 64) }
    ensures { LastOnes x n result }
{
    (x << (WORD - n)).leading_ones() as usize
}

// A first block, unless it is below `low`.
fn not_under(low: usize, first: usize) -> Option<usize>
    ensures { MatchOption result (first < low) (λ r. (r ≡ first) × (low ≤ first)) }
{
    if first < low {
        return None;
    }
    Some(first)
}

// ---- the search

// A search for free runs: the bitmap, and the wanted length of a run.
#[derive(Clone, Copy)]
struct Search<'a> {
    bitmap: Bitmap<'a>,
    wanted: usize,
    ghost some: { 1 ≤ wanted },
    ghost few: { wanted < 4294967296 },
}

impl<'a> Search<'a> {
    // The same among the first blocks.
    fn up_to(self, len: usize) -> Search<'a>
        requires { len ≤ self.bitmap.len }
        ensures bytes { result.bitmap.bytes.now ≡ self.entry.bitmap.bytes.now }
        ensures len { result.bitmap.len ≡ len }
        ensures wanted { result.wanted ≡ self.entry.wanted }
    {
        Search {
            bitmap: self.bitmap.up_to(len),
            wanted: self.wanted,
        }
    }

    // The lowest digit at which a row of so many ones begins.
    fn row_in(self, x: u64) -> Option<usize>
        ensures { SomeBelow (RowIn x self.entry.wanted) 64 result }
    {
        if WORD < self.wanted {
            return None;
        }
        let rows = fold(x, self.wanted);
        if rows == 0 {
            return None;
        }
        Some(rows.trailing_zeros() as usize)
    }

    // The highest digit at which a row of so many ones begins.
    fn top_row(self, x: u64) -> Option<usize>
        ensures { SomeBelow (TopRow x self.entry.wanted) 64 result }
    {
        if WORD < self.wanted {
            return None;
        }
        let rows = fold(x, self.wanted);
        if rows == 0 {
            return None;
        }
        Some(HIGHEST - rows.leading_zeros() as usize)
    }

    // Block f, unless a run from there on would end past the last block.
    fn within(self, f: usize) -> Option<usize>
        ensures { MatchOption result (self.entry.bitmap.len < f + self.entry.wanted)
            (λ r. (r ≡ f) × (f + self.entry.wanted ≤ self.entry.bitmap.len)) }
    {
        let last = self.bitmap.len.checked_sub(self.wanted)?;
        if last < f {
            return None;
        }
        Some(f)
    }

    // The lowest first block of a run from a block on: a word a step. The blocks from `begin` up to s are free.
    fn lowest(self, from: usize) -> Option<usize>
        requires { from ≤ self.bitmap.len }
        ensures { SomeBelow (Lowest self.entry.bitmap.bytes.now self.entry.bitmap.len self.entry.wanted from)
            self.entry.bitmap.len result }
    {
        let len = self.bitmap.len;
        let mut begin = from;
        let mut s = from;
        // The new form is no plainer: each step is computed, and counts no index.
        while s < len {
            let w = free_from(self.bitmap, s);
            let ones = first_ones(w.bits);
            if self.wanted <= s + ones - begin {
                return self.within(begin);
            }
            if w.count <= ones {
                s += w.count;
            } else if w.bits == 0 {
                s = self.bitmap.next_in(State::Free, s, len);
                begin = s;
            } else {
                if let Some(row) = self.row_in(w.bits) {
                    return self.within(s + row);
                }
                s += w.count;
                begin = s - last_ones(w.bits, w.count);
            }
        }
        self.within(begin)
    }

    // Where a run that begins below a block ends at most.
    fn furthest(self, below: usize) -> usize
        requires { below ≤ self.bitmap.len }
        ensures { (result ≤ self.entry.bitmap.len) × (below ≤ result) × (result < below + self.entry.wanted)
            × ((g : ℕ) → g < below → g + self.entry.wanted ≤ self.entry.bitmap.len → g + self.entry.wanted ≤ result) }
    {
        self.bitmap.len.min(below + self.wanted - 1)
    }

    // The highest first block of a run from `low` up to `below`. Downward by windows of up to 64 blocks: the blocks from e up
    // to `end` are free, and a run that is sought ends by `end`.
    fn highest(self, low: usize, below: usize) -> Option<usize>
        requires { (low ≤ below) × (below ≤ self.bitmap.len) }
        ensures { SomeBelow (Highest self.entry.bitmap.bytes.now self.entry.bitmap.len self.entry.wanted low below) below result }
    {
        if low == below {
            return None;
        }
        let mut end = self.furthest(below);
        let mut e = end;
        // The new form is no plainer: each step is computed, and counts no index.
        while low < e {
            let w = free_to(self.bitmap, e);
            if w.bits == 0 {
                e = self.bitmap.last_in(State::Free, low, e);
                end = e;
            } else {
                let ones = top_ones(w.bits);
                if self.wanted <= end - e + ones {
                    return not_under(low, end - self.wanted);
                }
                if ones < w.count {
                    if let Some(row) = self.top_row(w.bits) {
                        return not_under(low, e + row - WORD);
                    }
                    end = e - w.count + ones_from(w.bits, WORD - w.count);
                }
                e -= w.count;
            }
        }
        not_under(low, end.checked_sub(self.wanted)?)
    }

    // Of the run at `up`, the lowest from `near` on, and those that begin below `below`, the first block of the nearest, where
    // none begins from `below` up to `near`.
    fn nearer(self, near: usize, below: usize, up: usize) -> usize
        requires { (below ≤ near) × (near ≤ up) × (up < self.bitmap.len)
            × Clear self.bitmap.bytes.now self.bitmap.len self.wanted below near
            × Lowest self.bitmap.bytes.now self.bitmap.len self.wanted near up }
        ensures { Nearest self.entry.bitmap.bytes.now self.entry.bitmap.len self.entry.wanted near result }
    {
        let low = near.saturating_sub(up - near);
        self.highest(low.min(below), below).unwrap_or(up)
    }

    // The first block of the free run of this length that is nearest to a block, the lower of two at equal distance.
    // It is looked for outward, in steps that grow: no run begins from `below` up to `from`.
    fn nearest(self, near: usize) -> Result<u32, Refusal>
        requires { near < self.bitmap.len }
        ensures { result ≡ nearest self.entry.bitmap.bytes.now self.entry.bitmap.len self.entry.wanted near }
    {
        let len = self.bitmap.len;
        let mut below = near;
        let mut from = near;
        let mut step = FIRST_STEP;
        // The new form is no plainer: the steps grow on both sides, and count no index.
        while from - below < len {
            let top = len.min(from + step + self.wanted);
            if let Some(up) = self.up_to(top).lowest(from) {
                return Ok(self.nearer(near, below, up) as u32);
            }
            let low = below.saturating_sub(step);
            if let Some(down) = self.highest(low, below) {
                return Ok(down as u32);
            }
            below = low;
            from = len.min(from + step + 1);
            step = MOST_STEP.min(STEP_GROWTH * step);
        }
        Err(Refusal::NoRun)
    }
}

// The first block of the nearest free run of this length.
pub fn find(b: &[u8], l: u32, wanted: u32, near: u32) -> Result<u32, Refusal>
    ensures { Finds b.now l wanted near result }
{
    let bitmap = Bitmap::new(b, l)?;
    if l <= near {
        return Err(Refusal::NumberOutside);
    }
    if wanted == 0 {
        return Err(Refusal::WrongRun);
    }
    let search = Search {
        bitmap,
        wanted: wanted as usize,
    };
    search.nearest(near as usize)
}
