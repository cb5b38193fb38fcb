// Where a block of a rewritable disc is: lines 1 to 8, 10 to 12 and 30 of documents 01, "Why a call is turned down",
// and 02, and the place of the block's packet. Reading a block, saving one, saving a packet and sparing one begin here.
// All functions here are inside the layers: where one has a `requires`, the callers have tested it.
#![tactic(auto)]

ghost use Rattle.std.specs.Prelude.{◌≡◌, true, ◌+◌, ◌*◌, ◌%◌, ◌^◌, ◌≤◌, ◌<◌, eqb, length};
ghost use Rattle.refusal.specs.Number.{answer_number};
ghost use Rattle.model.specs.Disc.{disc as disc_of};
ghost use Rattle.model.specs.Examine.{setting};
ghost use Rattle.model.specs.Rewrite.{packet_verdict, packet_physical};
ghost use Rattle.sparing_current.specs.Held.{count_held, entries_lent};
ghost use Rattle.sparing_place.specs.Placed.{JudgesStart, Places, PlacesPacket};

use address::{LogicalAddress, PhysicalAddress, Span};
use maps::PACKET;
use model::Record;
use refusal::Refusal;

// Whether block b is a packet's start.
fn is_start(b: LogicalAddress) -> bool
    ensures { result ≡ eqb (b.0 % 32) 0 }
{
    b.0 % PACKET == 0
}

// Lines 12 and 30 of a block: it is below L, and no spare's. Inside the layers: lines 2 and 11 have been tested.
fn judge_number(span: Span, table: &[u32], held: Record, b: LogicalAddress) -> Result<(), Refusal>
    requires { (2 * count_held held ≤ length table.now) × (span.start + span.length < 2 ^ 32) }
    ensures { result ≡ packet_verdict span (entries_lent table.now held) b }
{
    if span.length <= b.0 {
        return Err(Refusal::NumberOutside);
    }
    if sparing_current::is_of_spare(table, held, span.start, b) {
        return Err(Refusal::BelongsToSpare);
    }
    Ok(())
}

// The same of a packet: line 12 asks that b is a packet's start, too.
pub fn judge_start(
    span: Span,
    table: &[u32],
    held: Record,
    b: LogicalAddress,
) -> Result<(), Refusal>
    requires { (2 * count_held held ≤ length table.now) × (span.start + span.length < 2 ^ 32) }
    ensures { JudgesStart span table.now held b.0 result }
{
    if !is_start(b) {
        return Err(Refusal::NumberOutside);
    }
    judge_number(span, table, held, b)
}

// The physical address of a logical one by the sparing entries: that of its packet's first block. It gives 30 after 12,
// which a translation that is lent S and L only (`address`) does not. Inside the layers: lines 2 and 11 have been tested.
fn packet_to_physical(
    span: Span,
    table: &[u32],
    held: Record,
    b: LogicalAddress,
) -> Result<PhysicalAddress, Refusal>
    requires { (2 * count_held held ≤ length table.now) × (span.start + span.length < 2 ^ 32) }
    ensures value { result ≡ packet_physical span (entries_lent table.now held) b }
    ensures result_value { answer_number result ≡ answer_number (packet_verdict span (entries_lent table.now held) b) }
{
    judge_number(span, table, held, b)?;
    let first = sparing_current::packet_place(table, held, span.start, b);
    Ok(first)
}

// Lines 1 to 8, 10 to 12 and 30, and the first sector of block b's packet; `lent` says, of the table too, whether the
// other lent slices have their lengths.
pub fn place_block(
    disc: &[u8],
    marks: &[u8],
    maps: &[u8],
    s: u32,
    l: u32,
    table: &[u32],
    lent: bool,
    held: Record,
    b: LogicalAddress,
) -> Result<PhysicalAddress, Refusal>
    requires { lent ≡ true → 4096 ≤ length table.now }
    ensures { Places (setting maps.now s l) (disc_of disc.now marks.now) table.now lent held b.0 result }
{
    let looked = sparing_current::judge(disc, marks, maps, s, l, table, lent, held)?;
    packet_to_physical(looked.layout.volume.span, table, held, b)
}

// The same of a packet, whose start b is to be.
pub fn place_packet(
    disc: &[u8],
    marks: &[u8],
    maps: &[u8],
    s: u32,
    l: u32,
    table: &[u32],
    lent: bool,
    held: Record,
    b: LogicalAddress,
) -> Result<PhysicalAddress, Refusal>
    requires { lent ≡ true → 4096 ≤ length table.now }
    ensures { PlacesPacket (setting maps.now s l) (disc_of disc.now marks.now) table.now lent held b.0 result }
{
    let looked = sparing_current::judge(disc, marks, maps, s, l, table, lent, held)?;
    let span = looked.layout.volume.span;
    if !is_start(b) {
        return Err(Refusal::NumberOutside);
    }
    packet_to_physical(span, table, held, b)
}
