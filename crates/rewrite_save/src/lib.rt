// Saving a block or a packet on a rewritable disc (document 01, "Calls and their sector writes"). Each call
// examines what it gets and refuses with the first line of documents 01 and 02 that applies; a refusal leaves every
// lent byte as it came. No call has a requires.
#![tactic(auto)]

ghost use Rattle.model.specs.Disc.{disc as disc_of};
ghost use Rattle.model.specs.Lent.{lent, SavesBlock, SavesPacket};
ghost use Rattle.rewrite_save.specs.Placed.{JudgesBlock};

use address::{LogicalAddress, PhysicalAddress};
use maps::PACKET;
use model::{Cut, PACKET_BYTES, Record, Reply, SECTOR};
use refusal::Refusal;

// ---- saving a block

// Why it is turned down, and else the first sector of its packet.
fn judge_block(
    disc: &[u8],
    marks: &[u8],
    maps: &[u8],
    s: u32,
    l: u32,
    table: &[u32],
    held: Record,
    b: LogicalAddress,
    block: &[u8],
) -> Result<PhysicalAddress, Refusal>
    ensures { JudgesBlock (lent disc.now marks.now maps.now s l)
        table.now held b.0 block.now result }
{
    let lent = examine::are_lent(table, block, SECTOR);
    let first = sparing_place::place_block(disc, marks, maps, s, l, table, lent, held, b)?;
    let i = b.0 % PACKET;
    disc_read::judge_run(marks, first, i as usize)?;
    let after = address::up_from(first, i + 1);
    disc_read::judge_run(marks, after, (31 - i) as usize)?;
    Ok(first)
}

// Saves a block as block b: its packet is read, and written again with this block replaced.
pub fn save_block(
    disc: &mut [u8],
    marks: &mut [u8],
    maps: &[u8],
    s: u32,
    l: u32,
    table: &[u32],
    held: Record,
    b: u32,
    block: &[u8],
    cut: Cut,
) -> Result<Reply, Refusal>
    ensures { SavesBlock (lent disc.old marks.old maps.now s l)
        table.now held b block.now cut result (disc_of disc.new marks.new) }
{
    let b = LogicalAddress(b);
    let first = judge_block(disc, marks, maps, s, l, table, held, b, block)?;
    sparing_writes::write_block(disc, marks, first, b.0 % PACKET, block, cut);
    if disc_writes::is_struck(cut, PACKET) {
        return Ok(Reply::Cut);
    }
    Ok(Reply::Done(held))
}

// ---- saving a packet

// Saves a packet: its 32 sectors are written, wherever it is read.
pub fn save_packet(
    disc: &mut [u8],
    marks: &mut [u8],
    maps: &[u8],
    s: u32,
    l: u32,
    table: &[u32],
    held: Record,
    b: u32,
    packet: &[u8],
    cut: Cut,
) -> Result<Reply, Refusal>
    ensures { SavesPacket (lent disc.old marks.old maps.now s l)
        table.now held b packet.now cut result (disc_of disc.new marks.new) }
{
    let b = LogicalAddress(b);
    let lent = examine::are_lent(table, packet, PACKET_BYTES);
    let first = sparing_place::place_packet(disc, marks, maps, s, l, table, lent, held, b)?;
    disc_writes::write_upward(disc, marks, first, PACKET, packet, 1, cut);
    if disc_writes::is_struck(cut, PACKET) {
        return Ok(Reply::Cut);
    }
    Ok(Reply::Done(held))
}
