// The calls on a rewritable disc that write no sector: opening and reading (document 01, "Calls and their
// sector writes"). Each examines what it gets and refuses with the first line of documents 01 and 02 that applies; a refusal leaves every
// lent byte as it came. No call has a requires.
#![tactic(auto)]

ghost use Rattle.std.specs.Prelude.{◌≡◌};
ghost use Rattle.model.specs.Disc.{disc as disc_of};
ghost use Rattle.model.specs.Examine.{setting};
ghost use Rattle.rewrite_open.specs.Calls.{opening_rewritable, opened_rewritable, reading_block, read_block_bytes};

use address::LogicalAddress;
use maps::PACKET;
use model::{Opened, Record, SECTOR};
use refusal::Refusal;

// ---- opening

// Opens the volume: finds the current sparing table on the disc, and fills the lent table with its entries.
pub fn open_rewritable(
    disc: &[u8],
    marks: &[u8],
    maps: &[u8],
    s: u32,
    l: u32,
    table: &mut [u32],
) -> Result<Opened, Refusal>
    ensures value { result ≡ opening_rewritable (setting maps.now s l) (disc_of disc.now marks.now) table.old }
    ensures table_after { table.new ≡ opened_rewritable (setting maps.now s l) (disc_of disc.now marks.now) table.old }
{
    let lent = examine::is_lent(table);
    let looked = sparing_current::look(disc, marks, maps, s, l, lent)?;
    let current = looked.current;
    let from = SECTOR * current.at.0 as usize;
    let to = from + SECTOR;
    sparing_table::fill_table(&disc[from..to], table);
    Ok(Opened {
        handed: Record::Rewritable {
            entries: current.entries,
            sequence: current.sequence,
        },
        passed: 0,
    })
}

// ---- reading

// Reads block b into the lent bytes.
pub fn read_block(
    disc: &[u8],
    marks: &[u8],
    maps: &[u8],
    s: u32,
    l: u32,
    table: &[u32],
    held: Record,
    b: u32,
    out: &mut [u8],
) -> Result<(), Refusal>
    ensures value { result ≡ reading_block (setting maps.now s l) (disc_of disc.now marks.now) table.now held b out.old }
    ensures out_after { out.new ≡ read_block_bytes (setting maps.now s l) (disc_of disc.now marks.now) table.now held b out.old }
{
    let b = LogicalAddress(b);
    let lent = examine::are_lent(table, out, SECTOR);
    let first = sparing_place::place_block(disc, marks, maps, s, l, table, lent, held, b)?;
    let at = address::up_from(first, b.0 % PACKET);
    disc_read::judge_sector(marks, at)?;
    let from = SECTOR * at.0 as usize;
    let to = from + SECTOR;
    out.copy_from_slice(&disc[from..to]);
    Ok(())
}
