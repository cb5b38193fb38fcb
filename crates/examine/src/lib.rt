// What every call on a disc examines first: lines 1 to 6 of document 01, "Why a call is turned down", once
// for all calls of both kinds; and lines 7 and 11 of the calls on a write-once disc.
// The calls above go on with the volume, by `?`, and with their own tests.
// All functions here are inside the layers: where one has a `requires`, the callers have tested it.
#![tactic(auto)]

ghost use Rattle.std.specs.Prelude.{◌≡◌, ℕ, ◌+◌, ◌%◌, ◌<◌, ◌≤◌, true, ◌&&◌, List, [], length, take, ◌==◌};
ghost use Rattle.maps.specs.Written.{kind_in_range};
ghost use Rattle.model.specs.Disc.{disc as disc_of};
ghost use Rattle.model.specs.Sparing.{ground_of};
ghost use Rattle.model.specs.Vat.{all_below};
ghost use Rattle.model.specs.Examine.{setting, all_outside, aligned, lent_table};
ghost use Rattle.model.specs.Once.{entries_held, next_held, last_held, held_fits};
ghost use Rattle.examine.specs.Ground.{placed_of, examined_of, JudgedOnce};

use address::{LogicalAddress, MediaBlockAddress, Span};
use maps::{Kind, PACKET, Volume};
use model::{MOST_ENTRIES, Record};
use refusal::Refusal;

// The entries that a lent table has at least.
const TABLE: usize = MOST_ENTRIES as usize;

// Line 3 of a call that is lent a table: whether it is long enough.
pub fn is_lent(table: &[u32]) -> bool
    ensures { result ≡ lent_table table.now }
{
    TABLE <= table.len()
}

// Line 3 of a call that is lent bytes too: whether there are `size` of them.
pub fn are_lent(table: &[u32], bytes: &[u8], size: usize) -> bool
    ensures { result ≡ (lent_table table.now && length bytes.now == size) }
{
    if table.len() < TABLE {
        return false;
    }
    bytes.len() == size
}

// ---- the record: N, NWA and the last ICB

// N, 0 of a record of the other kind.
pub fn entries_held(held: Record) -> u32
    ensures { result ≡ entries_held held }
{
    match held {
        Record::WriteOnce { entries, .. } => entries,
        Record::Rewritable { .. } => 0,
    }
}

// NWA, 0 of a record of the other kind.
pub fn next_held(held: Record) -> LogicalAddress
    ensures { result.0 ≡ next_held held }
{
    match held {
        Record::WriteOnce { next, .. } => LogicalAddress(next),
        Record::Rewritable { .. } => LogicalAddress(0),
    }
}

// The last ICB, 0 of a record of the other kind.
pub fn last_held(held: Record) -> LogicalAddress
    ensures { result.0 ≡ last_held held }
{
    match held {
        Record::WriteOnce { last, .. } => LogicalAddress(last),
        Record::Rewritable { .. } => LogicalAddress(0),
    }
}

// ---- lines 1 to 6

// Whether each of the first n table sectors begins a whole packet of the disc, outside the partition.
fn are_outside(sectors: usize, s: u32, l: u32, tables: [u32; 4], n: u8) -> bool
    requires { n ≤ 4 }
    ensures { result ≡ all_outside (ground_of s l sectors [] 0) (take n tables) }
{
    for table in &tables[..usize::from(n)] {
        let at = address::media_to_physical(MediaBlockAddress(*table));
        if !model::is_outside(sectors, s, l, at) {
            return false;
        }
    }
    true
}

// Whether a rewritable volume lies on packets: S, L, and the packet of each table.
fn is_aligned(sectors: usize, s: u32, l: u32, tables: [u32; 4], n: u8) -> bool
    requires { n ≤ 4 }
    ensures { result ≡ aligned (ground_of s l sectors (take n tables) 0) }
{
    if s % PACKET != 0 {
        return false;
    }
    if l % PACKET != 0 {
        return false;
    }
    are_outside(sectors, s, l, tables, n)
}

// Line 6, as far as the map list alone does not show it: a write-once volume may lie anywhere.
fn is_placed(sectors: usize, s: u32, l: u32, kind: Kind, tables: [u32; 4]) -> bool
    requires { kind_in_range kind ≡ true }
    ensures { result ≡ placed_of s l sectors kind tables }
{
    match kind {
        Kind::WriteOnce { .. } => true,
        Kind::Rewritable { tables: n, .. } => is_aligned(sectors, s, l, tables, n),
    }
}

// Lines 1 to 6; `lent` says whether the other lent slices have their lengths.
pub fn examine(
    disc: &[u8],
    marks: &[u8],
    maps: &[u8],
    s: u32,
    l: u32,
    lent: bool,
) -> Result<Volume, Refusal>
    ensures { result ≡ examined_of (setting maps.now s l) (disc_of disc.now marks.now) lent }
{
    let shapely = disc_marks::is_shapely(disc, marks);
    let inside = disc_marks::is_inside(marks, s, l);
    if !shapely {
        return Err(Refusal::DiscShape);
    }
    if !inside {
        return Err(Refusal::SpanOutside);
    }
    if !lent {
        return Err(Refusal::LentLength);
    }
    let found = maps::read_maps(maps)?;
    let kind = found.kind;
    let tables = found.tables;
    if !is_placed(marks.len(), s, l, kind, tables) {
        return Err(Refusal::Misaligned);
    }
    let span = Span {
        start: s,
        length: l,
    };
    Ok(Volume { span, kind, tables })
}

// One more than an entry, in 32 bits: 0 if it is unused.
fn one_past(entry: u32) -> u32
    ensures { (entry < 4294967296) × (result ≡ (entry + 1) % 4294967296) }
{
    entry.wrapping_add(1)
}

// Whether each of the first n entries is unused or below NWA: one past it is at most NWA. It counts those that
// are not, with no early way out.
fn are_below(table: &[u32], n: u32, next: LogicalAddress) -> bool
    requires { n ≤ length table.now }
    ensures { result ≡ all_below next.0 (take n table.now) }
{
    let next = next.0;
    let mut over: u32 = 0;
    for entry in &table[..n as usize] {
        if next < one_past(*entry) {
            over += 1;
        }
    }
    over == 0
}

// Line 11 on a write-once disc: whether the record goes with the disc and the lent table.
fn is_held(marks: &[u8], s: u32, l: u32, table: &[u32], held: Record) -> bool
    requires l_in_bounds { s + l ≤ length marks.now }
    requires marks_len_bound { length marks.now ≤ 1048576 }
    requires in_bounds { 4096 ≤ length table.now }
    ensures { (maps bytes : List ℕ) → result ≡ held_fits (setting maps s l) (disc_of bytes marks.now) table.now held }
{
    match held {
        Record::WriteOnce {
            entries,
            next,
            last,
        } => {
            if MOST_ENTRIES < entries {
                return false;
            }
            if next <= last {
                return false;
            }
            if !disc_marks::is_next(marks, s, l, LogicalAddress(next)) {
                return false;
            }
            are_below(table, entries, LogicalAddress(next))
        }
        Record::Rewritable { .. } => false,
    }
}

// Lines 1 to 7 and 11 of the calls on a write-once disc but opening and making, and where they hold the volume with
// its span; `lent` says, of the table too, whether the other lent slices have their lengths.
pub fn judge_once(
    disc: &[u8],
    marks: &[u8],
    maps: &[u8],
    s: u32,
    l: u32,
    table: &[u32],
    lent: bool,
    held: Record,
) -> Result<Volume, Refusal>
    requires { lent ≡ true → 4096 ≤ length table.now }
    ensures { JudgedOnce (setting maps.now s l) (disc_of disc.now marks.now) table.now lent held result }
{
    let volume = examine(disc, marks, maps, s, l, lent)?;
    if let Kind::Rewritable { .. } = volume.kind {
        return Err(Refusal::OtherKind);
    }
    if !is_held(marks, s, l, table, held) {
        return Err(Refusal::StaleRecord);
    }
    Ok(volume)
}
