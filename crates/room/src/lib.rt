// What a save and a commit take on a write-once disc (document 01, "Calls and their sector writes"): line 12 of a save,
// line 16 of both, and the record after each. The calls rely on it, and so does the forecast of a list of them.
// All functions here are inside the layers: where one has a `requires`, the callers have tested it.
#![tactic(auto)]

ghost use Rattle.std.specs.Prelude.{◌≡◌, ◌≤◌, ◌<◌};
ghost use Rattle.model.specs.Once.{entries_held, next_held, count_after, number_fits, room_to_save, saved_record, room_to_commit, icb_block, committed_record};

use address::{LogicalAddress, VirtualAddress};
use model::{MOST_ENTRIES, Record};

// ---- a save

// Line 12: whether there is an entry v, or v is the next one.
pub fn is_number(held: Record, v: VirtualAddress) -> bool
    ensures { result ≡ number_fits held v.0 }
{
    if examine::entries_held(held) < v.0 {
        return false;
    }
    v.0 < MOST_ENTRIES
}

// N after it.
fn count_after(n: u32, v: VirtualAddress) -> u32
    requires { n ≤ 4096 }
    ensures { result ≡ count_after n v.0 }
{
    if v.0 == n {
        return n + 1;
    }
    n
}

// Line 16: whether a commit still fits after it.
pub fn has_room(l: u32, held: Record, v: VirtualAddress) -> bool
    requires { (entries_held held ≤ 4096) × (v.0 < 4096) }
    ensures { result ≡ room_to_save l held v.0 }
{
    let entries = examine::entries_held(held);
    let next = examine::next_held(held);
    let after = count_after(entries, v);
    let data = vat_file_written::data_sectors(after);
    next.0 as u64 + 1 + data as u64 + 1 <= l as u64
}

// The record after it.
pub fn saved(held: Record, v: VirtualAddress) -> Record
    requires { (entries_held held ≤ 4096) × (next_held held ≤ 1048576) }
    ensures { result ≡ saved_record held v.0 }
{
    let entries = count_after(examine::entries_held(held), v);
    let next = examine::next_held(held);
    let last = examine::last_held(held);
    Record::WriteOnce {
        entries,
        next: next.0 + 1,
        last: last.0,
    }
}

// ---- a commit

// Line 16: whether it fits.
pub fn has_commit_room(l: u32, held: Record) -> bool
    requires { entries_held held ≤ 4096 }
    ensures { result ≡ room_to_commit l held }
{
    let next = examine::next_held(held).0 as u64;
    let count = vat_file_written::data_sectors(examine::entries_held(held)) as u64;
    next + count + 1 <= l as u64
}

// The logical block of the ICB that it writes.
fn icb_block(held: Record) -> LogicalAddress
    requires { (entries_held held ≤ 4096) × (next_held held ≤ 1048576) }
    ensures { result.0 ≡ icb_block held }
{
    let next = examine::next_held(held);
    let count = vat_file_written::data_sectors(examine::entries_held(held));
    let block = next.0 + count;
    LogicalAddress(block)
}

// The record after it.
pub fn committed(held: Record) -> Record
    requires { (entries_held held ≤ 4096) × (next_held held ≤ 1048576) }
    ensures { result ≡ committed_record held }
{
    let entries = examine::entries_held(held);
    let k = icb_block(held);
    Record::WriteOnce {
        entries,
        next: k.0 + 1,
        last: k.0,
    }
}
