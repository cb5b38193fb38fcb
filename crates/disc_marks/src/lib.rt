// What a lent disc's bytes and marks show (document 01, "The disc and its addresses"): its shape, the
// partition's span, the next writable block and which sectors are recorded.
// The layers above count on the equations: each function gives what the definition of its name gives.
// All functions here are inside the layers. Line 1 and line 2 ask for nothing; the others are called where
// those two have been tested, and say in a `requires` what they take from them.
#![tactic(auto)]

ghost use Rattle.std.specs.Prelude.{◌≡◌, ◌≢◌, List, ℕ, ◌+◌, ◌-◌, ◌^◌, ◌≤◌, ◌<◌, ◌++◌, max, length, drop, replicate, eqb};
ghost use Rattle.model.specs.Disc.{disc as disc_of, recorded_run, nwa, shapely, inside};
ghost use Rattle.disc_marks.specs.Marks.{highest_of};

use address::{LogicalAddress, MOST_SECTORS, PhysicalAddress};
use model::{BLANK, RECORDED, SECTOR, UNREADABLE};

// How many sectors a disc may have, as a length.
const MOST: usize = MOST_SECTORS as usize;

// How many marks are looked at in one turn, where there are many.
const TURN: usize = 64;

const MANY: usize = 1024;

// How many marks are looked at in one step down: first very many, then fewer, at last one.
const LONGEST_STEP: usize = 65536;

const LONG_STEP: usize = 4096;

const SHORT_STEP: usize = 128;

// The highest of few marks, `least` if none is above it. It looks at each, with no early way out.
#[tactic(auto, using(crate::proofs::Laws::highest_next, crate::proofs::Laws::highest_end))]
fn highest_few(marks: &[u8], least: u8) -> u8
    ensures { result ≡ max least (highest_of marks.now) }
{
    let mut top = least;
    for m in marks {
        top = top.max(*m);
    }
    top
}

// Raises each of a turn's marks to the one in the same place, where that is higher.
#[tactic(auto, using(crate::proofs::Laws::highest_next, crate::proofs::Laws::highest_end, crate::proofs::Laws::highest_raised))]
fn raise(tops: &mut [u8; TURN], marks: &[u8; TURN])
    ensures { highest_of tops.new ≡ max (highest_of tops.old) (highest_of marks.now) }
{
    for i in 0..TURN {
        tops[i] = tops[i].max(marks[i]);
    }
}

// The highest of many marks, 0 of none. A turn looks at as many as a line of the processor's cache has bytes, each
// beside the highest that were in its place.
fn highest_many(marks: &[u8]) -> u8
    ensures { result ≡ highest_of marks.now }
{
    let (turns, rest) = marks.as_chunks::<TURN>();
    let mut tops = [BLANK; TURN];
    for turn in turns {
        raise(&mut tops, turn);
    }
    highest_few(&tops, highest_few(rest, BLANK))
}

// The highest mark, 0 of none.
fn highest_mark(marks: &[u8]) -> u8
    ensures { result ≡ highest_of marks.now }
{
    if marks.len() < MANY {
        return highest_few(marks, BLANK);
    }
    highest_many(marks)
}

// Line 1: whether the lent bytes and marks are a disc. The sectors are counted before they are multiplied.
#[tactic(auto, using(std::proofs::lemmas::Bool::Decides::nat_tests, crate::proofs::Laws::highest_known), unfolding(model::specs::Disc::shapely))]
pub fn is_shapely(disc: &[u8], marks: &[u8]) -> bool
    ensures { result ≡ shapely (disc_of disc.now marks.now) }
{
    let sectors = marks.len();
    0 < sectors
        && sectors <= MOST
        && disc.len() == SECTOR * sectors
        && highest_mark(marks) <= UNREADABLE
}

// Line 2: whether the partition of `l` sectors from `s` on lies on the disc.
#[tactic(auto, using(std::proofs::lemmas::Bool::Decides::nat_tests), unfolding(model::specs::Disc::inside))]
pub fn is_inside(marks: &[u8], s: u32, l: u32) -> bool
    ensures { (bytes : List ℕ) → result ≡ inside (disc_of bytes marks.now) s l }
{
    l != 0 && u64::from(s) + u64::from(l) <= marks.len() as u64
}

// The marks without the blank ones at their end, as far as whole steps pass over them.
fn skip_blank<const STEP: usize>(marks: &[u8]) -> &[u8]
    requires { (0 < STEP) × (STEP < 2 ^ 63) }
    ensures blank { result.now ++ replicate (length marks.now - length result.now) 0 ≡ marks.now }
    ensures used { STEP ≤ length result.now → highest_of (drop (length result.now - STEP) result.now) ≢ 0 }
{
    let mut left = marks;
    // The new form is no plainer: a `for` over chunks from the end does not hand back the marks that are left.
    while let Some((below, step)) = left.split_last_chunk::<STEP>() {
        if highest_mark(step) != BLANK {
            return left;
        }
        left = below;
    }
    left
}

// NWA: the block one past the partition's last sector that is not blank. It looks down from the end.
// Inside the layers: lines 1 and 2 have been tested.
pub fn next_writable(marks: &[u8], s: u32, l: u32) -> LogicalAddress
    requires l_in_bounds { s + l ≤ length marks.now }
    requires marks_len_bound { length marks.now ≤ 1048576 }
    ensures { (bytes : List ℕ) → result.0 ≡ nwa (disc_of bytes marks.now) s l }
{
    let partition = &marks[s as usize..][..l as usize];
    let far = skip_blank::<LONGEST_STEP>(partition);
    let near = skip_blank::<LONG_STEP>(far);
    let close = skip_blank::<SHORT_STEP>(near);
    LogicalAddress(skip_blank::<1>(close).len() as u32)
}

// Whether NWA is `next`: all is blank from there on, and the sector below is not. No mark below that is
// looked at. Inside the layers: lines 1 and 2 have been tested.
pub fn is_next(marks: &[u8], s: u32, l: u32, next: LogicalAddress) -> bool
    requires l_in_bounds { s + l ≤ length marks.now }
    requires marks_len_bound { length marks.now ≤ 1048576 }
    ensures { (bytes : List ℕ) → result ≡ eqb next.0 (nwa (disc_of bytes marks.now) s l) }
{
    if l < next.0 {
        return false;
    }
    let partition = &marks[s as usize..][..l as usize];
    let (below, above) = partition.split_at(next.0 as usize);
    if highest_mark(above) != BLANK {
        return false;
    }
    match below {
        [] => true,
        [.., last] => *last != BLANK,
    }
}

// Whether each of `count` sectors from `from` on is recorded. It looks at each, with no early way out.
// Inside the layers: they are the disc's.
#[tactic(auto, using(std::proofs::lemmas::List::take_all, crate::proofs::Laws::recorded_lent))]
pub fn all_recorded(marks: &[u8], from: PhysicalAddress, count: usize) -> bool
    requires { from.0 + count ≤ length marks.now }
    ensures { (bytes : List ℕ) → result ≡ recorded_run (disc_of bytes marks.now) from.0 count }
{
    let mut all = true;
    for m in &marks[from.0 as usize..][..count] {
        all &= *m == RECORDED;
    }
    all
}
