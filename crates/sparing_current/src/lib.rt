// What every call on a rewritable disc examines: lines 1 to 8, 10 and 11 of document 01, "Why a call is turned
// down"; and what the calls then go by: the layout of the volume, and the current sparing table.
// All functions here are inside the layers: where one has a `requires`, the callers have tested it.
#![tactic(auto)]

ghost use Rattle.std.specs.Prelude.{◌≡◌, true, List, ℕ, ◌+◌, ◌*◌, ◌^◌, ◌≤◌, ◌<◌, length, take};
ghost use Rattle.model.specs.Disc.{disc as disc_of, sector};
ghost use Rattle.model.specs.Sparing.{ground_of, count_in, packet_of, of_spare, locate};
ghost use Rattle.model.specs.Examine.{Setting, setting, geometry};
ghost use Rattle.model.specs.Rewrite.{held_current};
ghost use Rattle.sparing_copy.specs.Layout.{geometry_in};
ghost use Rattle.sparing_copies.specs.Copies.{IsCurrent};
ghost use Rattle.sparing_current.specs.Looked.{LaysOut, Sees, Judges};
ghost use Rattle.sparing_current.specs.Held.{count_held, sequence_held, entries_lent};

use address::{LogicalAddress, PhysicalAddress};
use maps::{Kind, PACKET, Volume};
use model::{Record, SECTOR};
use refusal::Refusal;
use sparing_copies::Current;
use sparing_copy::Layout;

// What a rewritable disc is found to hold: the layout of its volume, and the current sparing table.
#[derive(Clone, Copy)]
pub struct Looked {
    pub layout: Layout,
    pub current: Current,
}

// What a rewritable volume lies in.
pub fn layout_of(volume: Volume, sectors: usize, n: u8, size: u32) -> Layout
    requires { sectors ≤ 1048576 }
    ensures { (geometry_in result ≡ ground_of volume.span.start volume.span.length sectors (take n volume.tables) size) × (result.count ≡ n) }
{
    Layout {
        volume,
        sectors: sectors as u32,
        count: n,
        size,
    }
}

// Lines 1 to 7, and the layout of the volume; `lent` says whether the other lent slices have their lengths.
pub fn lay_out(
    disc: &[u8],
    marks: &[u8],
    maps: &[u8],
    s: u32,
    l: u32,
    lent: bool,
) -> Result<Layout, Refusal>
    ensures { LaysOut (setting maps.now s l) (disc_of disc.now marks.now) lent result }
{
    let volume = examine::examine(disc, marks, maps, s, l, lent)?;
    match volume.kind {
        Kind::WriteOnce { .. } => Err(Refusal::OtherKind),
        Kind::Rewritable { tables, size, .. } => {
            Ok(layout_of(volume, marks.len(), tables, size))
        }
    }
}

// Lines 1 to 8 and 10, and what is found; `lent` says whether the other lent slices have their lengths.
pub fn look(
    disc: &[u8],
    marks: &[u8],
    maps: &[u8],
    s: u32,
    l: u32,
    lent: bool,
) -> Result<Looked, Refusal>
    ensures { Sees (setting maps.now s l) (disc_of disc.now marks.now) lent result }
{
    let layout = lay_out(disc, marks, maps, s, l, lent)?;
    let current = sparing_copies::find_current(disc, marks, layout)?;
    Ok(Looked { layout, current })
}

// Line 11: whether the record and the lent table that goes with it are those of the current table.
fn is_current(disc: &[u8], table: &[u32], held: Record, current: Current) -> bool
    requires at_in_bounds { (2048 * current.at.0 + 2048 ≤ length disc.now) × (current.at.0 < 1048576) }
    requires by_index { (marks : List ℕ) → current.entries ≡ count_in (sector (disc_of disc.now marks) current.at.0) }
    requires entries_bound { (56 + 8 * current.entries ≤ 2048) × (2 * current.entries ≤ length table.now) }
    ensures { (e : Setting) (marks : List ℕ) → IsCurrent (disc_of disc.now marks) (geometry e (disc_of disc.now marks)) current
        → result ≡ held_current e (disc_of disc.now marks) table.now held }
{
    match held {
        Record::WriteOnce { .. } => false,
        Record::Rewritable { entries, sequence } => {
            if entries != current.entries {
                return false;
            }
            if sequence != current.sequence {
                return false;
            }
            let from = SECTOR * current.at.0 as usize;
            let to = from + SECTOR;
            sparing_table::is_same(&disc[from..to], table, entries)
        }
    }
}

// Lines 1 to 8, 10 and 11, and what is found; `lent` says, of the table too, whether the other lent slices have their lengths.
pub fn judge(
    disc: &[u8],
    marks: &[u8],
    maps: &[u8],
    s: u32,
    l: u32,
    table: &[u32],
    lent: bool,
    held: Record,
) -> Result<Looked, Refusal>
    requires { lent ≡ true → 4096 ≤ length table.now }
    ensures { Judges (setting maps.now s l) (disc_of disc.now marks.now) table.now lent held result }
{
    let looked = look(disc, marks, maps, s, l, lent)?;
    if !is_current(disc, table, held, looked.current) {
        return Err(Refusal::StaleRecord);
    }
    Ok(looked)
}

// ---- the record: R and the sequence

// R, 0 of a record of the other kind.
#[tactic(auto, unfolding(crate::specs::Held::count_held))]
pub fn count_held(held: Record) -> u32
    ensures { result ≡ count_held held }
{
    match held {
        Record::WriteOnce { .. } => 0,
        Record::Rewritable { entries, .. } => entries,
    }
}

// The sequence, 0 of a record of the other kind.
#[tactic(auto, unfolding(crate::specs::Held::sequence_held))]
pub fn sequence_held(held: Record) -> u32
    ensures { result ≡ sequence_held held }
{
    match held {
        Record::WriteOnce { .. } => 0,
        Record::Rewritable { sequence, .. } => sequence,
    }
}

// The first block of the packet of block b.
#[tactic(auto, unfolding(model::specs::Sparing::packet_of))]
fn packet_of(b: LogicalAddress) -> LogicalAddress
    ensures { result.0 ≡ packet_of b.0 }
{
    LogicalAddress(b.0 - b.0 % PACKET)
}

// Whether block b belongs to a spare: an entry of whatever kind maps its packet's own place. Inside the layers: lines 2
// and 11 have been tested, and b is below L.
pub fn is_of_spare(table: &[u32], held: Record, s: u32, b: LogicalAddress) -> bool
    requires { (2 * count_held held ≤ length table.now) × (s + b.0 < 2 ^ 32) }
    ensures { result ≡ of_spare s (entries_lent table.now held) b.0 }
{
    let n = count_held(held) as usize;
    let first = packet_of(b);
    let place = address::sector_of(s, first);
    !sparing_table::is_unmapped(table, n, place)
}

// The sector at which the packet of block b is read. Inside the layers: lines 2 and 11 have been tested, and
// b is below L.
pub fn packet_place(table: &[u32], held: Record, s: u32, b: LogicalAddress) -> PhysicalAddress
    requires { (2 * count_held held ≤ length table.now) × (s + b.0 < 2 ^ 32) }
    ensures { result.0 ≡ locate s (entries_lent table.now held) (packet_of b.0) }
{
    let entries = count_held(held);
    let first = packet_of(b);
    sparing_table::find_packet(table, entries, s, first)
}
