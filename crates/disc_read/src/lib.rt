// Whether sectors can be read: lines 25 and 14 (document 02, slip 5, "Blank or broken"). Every call that reads a sector
// tests them here. The functions are inside the layers: line 1 has been tested, and the sectors are the disc's.
#![tactic(auto)]

ghost use Rattle.std.specs.Prelude.{◌≡◌, List, ℕ, ◌+◌, ◌≤◌, ◌<◌, length};
ghost use Rattle.refusal.specs.Tests.{first};
ghost use Rattle.model.specs.Disc.{disc as disc_of, mark as mark_of, first_mark, mark_tests};

use address::PhysicalAddress;
use model::{BLANK, RECORDED};
use refusal::Refusal;

// What the mark of a sector to be read is told as: a blank one is line 25, an unreadable one line 14.
fn judge_mark(mark: u8) -> Result<(), Refusal>
    ensures { result ≡ first (mark_tests mark) }
{
    if mark == RECORDED {
        return Ok(());
    }
    if mark == BLANK {
        return Err(Refusal::BlankSector);
    }
    Err(Refusal::UnreadableSector)
}

// Lines 25 and 14 of one sector.
pub fn judge_sector(marks: &[u8], at: PhysicalAddress) -> Result<(), Refusal>
    requires { at.0 < length marks.now }
    ensures { (bytes : List ℕ) → result ≡ first (mark_tests (mark_of (disc_of bytes marks.now) at.0)) }
{
    let at = at.0 as usize;
    judge_mark(marks[at])
}

// The mark of the first of `count` sectors from `from` on that is not recorded, 1 if all are.
fn first_mark(marks: &[u8], from: PhysicalAddress, count: usize) -> u8
    requires { from.0 + count ≤ length marks.now }
    ensures { (bytes : List ℕ) → result ≡ first_mark (disc_of bytes marks.now) from.0 count }
{
    let from = from.0 as usize;
    for mark in &marks[from..from + count] {
        if *mark != RECORDED {
            return *mark;
        }
    }
    RECORDED
}

// Lines 25 and 14 of `count` sectors from `from` on. The first that is not recorded is looked for only where one is not.
pub fn judge_run(marks: &[u8], from: PhysicalAddress, count: usize) -> Result<(), Refusal>
    requires { from.0 + count ≤ length marks.now }
    ensures { (bytes : List ℕ) → result ≡ first (mark_tests (first_mark (disc_of bytes marks.now) from.0 count)) }
{
    if disc_marks::all_recorded(marks, from, count) {
        return Ok(());
    }
    judge_mark(first_mark(marks, from, count))
}
