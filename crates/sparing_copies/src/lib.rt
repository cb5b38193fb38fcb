// The copies of the sparing table on a disc (document 01, "The sparing table"): which count, and which are
// current.
// The layers above count on the equations: each function gives what the definition of its name gives.
// All functions here are inside the layers: where one has a `requires`, the callers have tested it.
#![tactic(auto)]

ghost use Rattle.std.specs.Prelude.{◌≡◌, true, List, ℕ, ◌+◌, ◌*◌, ◌≤◌, ◌<◌, length, IfSome};
ghost use Rattle.fields.specs.Bytes.{same};
ghost use Rattle.model.specs.Disc.{disc as disc_of, sector};
ghost use Rattle.model.specs.Sparing.{count_in, counts, sequence_at, table_at};
ghost use Rattle.sparing_copy.specs.Layout.{geometry_in, TablesOn};
ghost use Rattle.sparing_copies.specs.Copies.{used_at, newer_of, newest_of, agrees, agreeing, FoundCurrent};

use address::{MediaBlockAddress, PhysicalAddress};
use fields::Number;
use model::{RECORDED, SECTOR};
use refusal::Refusal;
use sparing_copy::{COUNT_AT, ENTRIES_AT, ENTRY, Layout, SEQUENCE_AT};

// The newest of some copies that count: the first of those with the highest sequence, and that sequence.
#[derive(Clone, Copy)]
pub struct Newest {
    pub at: PhysicalAddress,
    pub sequence: u32,
}

// The current table: the sector of a current copy, its sequence and the number of its entries.
#[derive(Clone, Copy)]
pub struct Current {
    pub at: PhysicalAddress,
    pub sequence: u32,
    pub entries: u32,
}

// The place that stands where there is none: nobody reads it.
pub fn nowhere() -> PhysicalAddress
    ensures { result.0 ≡ 0 }
{
    address::media_to_physical(MediaBlockAddress(0))
}

// Where the bytes of sector `t` start.
fn start_of(t: PhysicalAddress) -> usize
    ensures { (result ≡ 2048 * t.0) × (t.0 < 4294967296) }
{
    SECTOR * t.0 as usize
}

// Whether the copy at sector `t` counts.
fn copy_counts(disc: &[u8], marks: &[u8], x: Layout, t: PhysicalAddress) -> bool
    requires count_bound { (x.count ≤ 4) × (x.size ≤ 2048) }
    requires disc_len { length disc.now ≡ 2048 * length marks.now }
    requires t_in_bounds { t.0 < length marks.now }
    ensures { result ≡ counts (disc_of disc.now marks.now) (geometry_in x) t.0 }
{
    let is_recorded = marks[t.0 as usize] == RECORDED;
    let from = start_of(t);
    let to = from + SECTOR;
    is_recorded && x.copy_fits(&disc[from..to])
}

// The sequence of the copy at sector `t`.
pub fn sequence_at(disc: &[u8], t: PhysicalAddress) -> u32
    requires { 2048 * t.0 + 2048 ≤ length disc.now }
    ensures { (marks : List ℕ) → result ≡ sequence_at (disc_of disc.now marks) t.0 }
{
    u32::read(disc, start_of(t) + SEQUENCE_AT)
}

// The number of its entries.
fn count_at(disc: &[u8], t: PhysicalAddress) -> u16
    requires { 2048 * t.0 + 2048 ≤ length disc.now }
    ensures { (marks : List ℕ) → result ≡ count_in (sector (disc_of disc.now marks) t.0) }
{
    u16::read(disc, start_of(t) + COUNT_AT)
}

// Whether sector `t` has the bytes of the copy at sector `other`, up to the end of its entries.
fn same_copy(disc: &[u8], t: PhysicalAddress, other: PhysicalAddress) -> bool
    requires t_in_bounds { (2048 * t.0 + 2048 ≤ length disc.now) × (2048 * other.0 + 2048 ≤ length disc.now) }
    requires by_index { (marks : List ℕ) → 56 + 8 * count_in (sector (disc_of disc.now marks) other.0) ≤ 2048 }
    ensures { (marks : List ℕ) → result ≡ same (used_at (disc_of disc.now marks) other.0 t.0) (used_at (disc_of disc.now marks) other.0 other.0) }
{
    let used = ENTRIES_AT + ENTRY * usize::from(count_at(disc, other));
    let a = start_of(t);
    let b = start_of(other);
    let end_a = a + used;
    let end_b = b + used;
    fields::same_bytes(&disc[a..end_a], &disc[b..end_b])
}

// Whether the copy at sector `t` counts, where the one at sector `at` does: if it is recorded and has the same
// bytes, it is not tested again.
pub fn counts_beside(
    disc: &[u8],
    marks: &[u8],
    x: Layout,
    t: PhysicalAddress,
    at: PhysicalAddress,
) -> bool
    requires count_bound { (x.count ≤ 4) × (x.size ≤ 2048) }
    requires disc_len { length disc.now ≡ 2048 * length marks.now }
    requires t_in_bounds { (t.0 < length marks.now) × (at.0 < length marks.now) }
    requires at_value { counts (disc_of disc.now marks.now) (geometry_in x) at.0 ≡ true }
    ensures { result ≡ counts (disc_of disc.now marks.now) (geometry_in x) t.0 }
{
    if same_copy(disc, t, at) {
        marks[t.0 as usize] == RECORDED
    } else {
        copy_counts(disc, marks, x, t)
    }
}

// Whether the copies at sectors `t` and `other` have the same number of entries, and the same entries.
fn same_table(disc: &[u8], t: PhysicalAddress, other: PhysicalAddress) -> bool
    requires t_in_bounds { (2048 * t.0 + 2048 ≤ length disc.now) × (2048 * other.0 + 2048 ≤ length disc.now) }
    requires by_index { (marks : List ℕ) → 56 + 8 * count_in (sector (disc_of disc.now marks) t.0) ≤ 2048 }
    ensures { (marks : List ℕ) → result ≡ same (table_at (disc_of disc.now marks) t.0) (table_at (disc_of disc.now marks) other.0) }
{
    let n = count_at(disc, t);
    if n != count_at(disc, other) {
        return false;
    }
    let bytes = ENTRY * usize::from(n);
    let a = start_of(t) + ENTRIES_AT;
    let b = start_of(other) + ENTRIES_AT;
    let end_a = a + bytes;
    let end_b = b + bytes;
    fields::same_bytes(&disc[a..end_a], &disc[b..end_b])
}

// The newest of copies of which the first is at sector `t`, and `newest` is the newest of the others. Whether
// an older one counts is not asked.
fn newer_copy(
    disc: &[u8],
    marks: &[u8],
    x: Layout,
    t: PhysicalAddress,
    newest: Option<Newest>,
) -> Option<Newest>
    requires count_bound { (x.count ≤ 4) × (x.size ≤ 2048) }
    requires disc_len { length disc.now ≡ 2048 * length marks.now }
    requires t_in_bounds { t.0 < length marks.now }
    requires at_in_bounds { IfSome newest (λ n. n.at.0 < length marks.now) }
    requires at_value { IfSome newest (λ n. counts (disc_of disc.now marks.now) (geometry_in x) n.at.0 ≡ true) }
    ensures { result ≡ newer_of (disc_of disc.now marks.now) (geometry_in x) t.0 newest }
{
    let sequence = sequence_at(disc, t);
    let is_newer = match newest {
        Some(other) => other.sequence <= sequence && counts_beside(disc, marks, x, t, other.at),
        None => copy_counts(disc, marks, x, t),
    };
    if is_newer {
        Some(Newest { at: t, sequence })
    } else {
        newest
    }
}

// The newest copy. It looks from the last table to the first.
fn newest_copy(disc: &[u8], marks: &[u8], x: Layout) -> Option<Newest>
    requires count_bound { (x.count ≤ 4) × (x.size ≤ 2048) }
    requires disc_len { length disc.now ≡ 2048 * length marks.now }
    requires sectors_value { (x.sectors ≡ length marks.now) × TablesOn x }
    ensures { result ≡ newest_of (disc_of disc.now marks.now) (geometry_in x) (geometry_in x).tables }
{
    let tables = x.tables();
    let mut newest = None;
    for i in (0..tables.len()).rev() {
        let t = address::media_to_physical(MediaBlockAddress(tables[i]));
        newest = newer_copy(disc, marks, x, t, newest);
    }
    newest
}

// Whether the copy at sector `t` does not count, is of another sequence, or has the table of that at `at`,
// which counts. Whether it counts is asked last, so that copies that agree are not tested again.
fn copy_agrees(
    disc: &[u8],
    marks: &[u8],
    x: Layout,
    t: PhysicalAddress,
    at: PhysicalAddress,
    sequence: u32,
) -> bool
    requires count_bound { (x.count ≤ 4) × (x.size ≤ 2048) }
    requires disc_len { length disc.now ≡ 2048 * length marks.now }
    requires t_in_bounds { (t.0 < length marks.now) × (at.0 < length marks.now) }
    requires at_value { counts (disc_of disc.now marks.now) (geometry_in x) at.0 ≡ true }
    ensures { result ≡ agrees (disc_of disc.now marks.now) (geometry_in x) at.0 sequence t.0 }
{
    if t.0 == at.0 {
        return true;
    }
    if sequence_at(disc, t) != sequence {
        return true;
    }
    same_table(disc, at, t) || !copy_counts(disc, marks, x, t)
}

// Whether every copy that counts and is of this sequence has the table of the copy at `at`, which counts.
fn copies_agree(disc: &[u8], marks: &[u8], x: Layout, at: PhysicalAddress, sequence: u32) -> bool
    requires count_bound { (x.count ≤ 4) × (x.size ≤ 2048) }
    requires disc_len { length disc.now ≡ 2048 * length marks.now }
    requires sectors_value { (x.sectors ≡ length marks.now) × TablesOn x }
    requires at_in_bounds { at.0 < length marks.now }
    requires at_value { counts (disc_of disc.now marks.now) (geometry_in x) at.0 ≡ true }
    ensures { result ≡ agreeing (disc_of disc.now marks.now) (geometry_in x) at.0 sequence (geometry_in x).tables }
{
    let tables = x.tables();
    for table in tables {
        let t = address::media_to_physical(MediaBlockAddress(*table));
        if !copy_agrees(disc, marks, x, t, at, sequence) {
            return false;
        }
    }
    true
}

// Finds the current table: the highest sequence among copies that count, and whether all copies of that
// sequence have the same entries (lines 8 and 10 of "Why a call is turned down").
pub fn find_current(disc: &[u8], marks: &[u8], x: Layout) -> Result<Current, Refusal>
    requires count_bound { (x.count ≤ 4) × (x.size ≤ 2048) }
    requires disc_len { length disc.now ≡ 2048 * length marks.now }
    requires sectors_value { (x.sectors ≡ length marks.now) × TablesOn x }
    ensures { FoundCurrent (disc_of disc.now marks.now) (geometry_in x) result }
{
    let Some(newest) = newest_copy(disc, marks, x) else {
        return Err(Refusal::NoTable);
    };
    let at = newest.at;
    let sequence = newest.sequence;
    if !copies_agree(disc, marks, x, at, sequence) {
        return Err(Refusal::CopiesDiffer);
    }
    let entries = u32::from(count_at(disc, at));
    Ok(Current {
        at,
        sequence,
        entries,
    })
}
