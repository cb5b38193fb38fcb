// Sparing a packet of a rewritable disc (document 01, "Calls and their sector writes"; 02, slips 1 and 8). The call examines what
// it gets and refuses with the first line of documents 01 and 02 that applies; a refusal leaves every lent byte as it
// came. It has no requires.
#![tactic(auto)]

ghost use Rattle.std.specs.Prelude.{◌≡◌, true, ◌+◌, ◌*◌, ◌≤◌, ◌<◌, length};
ghost use Rattle.model.specs.Disc.{disc as disc_of};
ghost use Rattle.model.specs.Writes.{writes};
ghost use Rattle.model.specs.Lent.{lent, Spares};
ghost use Rattle.model.specs.Sparing.{counts};
ghost use Rattle.sparing_copy.specs.Layout.{geometry_in, TablesOn};
ghost use Rattle.rewrite_spare.specs.Parts.{JudgesSparing, sparing_writes};

use address::{LogicalAddress, PhysicalAddress};
use maps::PACKET;
use model::{Cut, PACKET_BYTES, Record, Reply, SECTOR};
use refusal::Refusal;
use sparing_current::Looked;

// What a sparing goes by: the layout and the current table, the mapped start of the free entry of lowest index, and the
// sequence plus 1.
#[derive(Clone, Copy)]
struct Sparing {
    looked: Looked,
    first: PhysicalAddress,
    next: u32,
}

// Why a sparing is turned down, and else what it goes by.
fn judge_spare(
    disc: &[u8],
    marks: &[u8],
    maps: &[u8],
    s: u32,
    l: u32,
    table: &[u32],
    held: Record,
    b: LogicalAddress,
    packet: &[u8],
) -> Result<Sparing, Refusal>
    ensures { JudgesSparing (lent disc.now marks.now maps.now s l)
        table.now held b.0 packet.now result }
{
    let lent = examine::are_lent(table, packet, PACKET_BYTES);
    let looked = sparing_current::judge(disc, marks, maps, s, l, table, lent, held)?;
    let layout = looked.layout;
    sparing_place::judge_start(layout.volume.span, table, held, b)?;
    if layout.count < 2 {
        return Err(Refusal::OneTable);
    }
    let entries = sparing_current::count_held(held);
    let first = sparing_table::first_free(table, entries).ok_or(Refusal::NoSpare)?;
    let sequence = sparing_current::sequence_held(held);
    let next = sequence.checked_add(1).ok_or(Refusal::LastSequence)?;
    Ok(Sparing {
        looked,
        first,
        next,
    })
}

// Writes a packet upward to the free place, then a table's sector to the copies: the current ones last. Inside the
// layers: every line of a sparing has been tested.
fn write_sparing(
    disc: &mut [u8],
    marks: &mut [u8],
    x: Sparing,
    packet: &[u8],
    sector: &[u8],
    cut: Cut,
)
    requires count_bound { (x.looked.layout.count ≤ 4) × (x.looked.layout.size ≤ 2048) }
    requires sectors_value { (x.looked.layout.sectors ≡ length marks.old) × TablesOn x.looked.layout }
    requires at_in_bounds { (x.looked.current.at.0 < length marks.old) × (counts (disc_of disc.old marks.old) (geometry_in x.looked.layout) x.looked.current.at.0 ≡ true) }
    requires first_in_bounds { (x.first.0 + 32 ≤ length marks.old) × (length disc.old ≡ 2048 * length marks.old) × (length marks.old ≤ 1048576) }
    requires packet_len { (length packet.now ≡ 65536) × (length sector.now ≡ 2048) }
    ensures { disc_of disc.new marks.new
        ≡ writes 1 cut (sparing_writes (disc_of disc.old marks.old) (geometry_in x.looked.layout) x.looked.current.sequence x.first.0 packet.now sector.now) (disc_of disc.old marks.old) }
{
    let layout = x.looked.layout;
    let current = x.looked.current;
    let places = sparing_writes::copy_order(disc, marks, layout, current.sequence, current.at);
    let copies = usize::from(layout.count);
    disc_writes::write_upward(disc, marks, x.first, PACKET, packet, 1, cut);
    sparing_writes::write_copies(disc, marks, &places[..copies], sector, PACKET + 1, cut);
}

// Spares a packet, also one that is spared already: its bytes go to the free entry of lowest index, then the table
// is written anew.
pub fn spare_packet(
    disc: &mut [u8],
    marks: &mut [u8],
    maps: &[u8],
    s: u32,
    l: u32,
    table: &mut [u32],
    held: Record,
    b: u32,
    packet: &[u8],
    cut: Cut,
) -> Result<Reply, Refusal>
    ensures { Spares (lent disc.old marks.old maps.now s l)
        table.old held b packet.now cut
        result (disc_of disc.new marks.new) table.new }
{
    let b = LogicalAddress(b);
    let sparing = judge_spare(disc, marks, maps, s, l, table, held, b, packet)?;
    let entries = sparing_current::count_held(held);
    let next = sparing.next;
    let mut sector = [0u8; SECTOR];
    sparing_written::write_spared(&mut sector, table, entries, b, next);
    write_sparing(disc, marks, sparing, packet, &sector, cut);
    if disc_writes::is_struck(cut, PACKET + u32::from(sparing.looked.layout.count)) {
        return Ok(Reply::Cut);
    }
    sparing_table::fill_table(&sector, table);
    Ok(Reply::Done(Record::Rewritable {
        entries,
        sequence: next,
    }))
}
