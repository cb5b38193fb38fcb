// Committing on a write-once disc: the VAT's data and its ICB (document 01, "Calls and their sector writes").
// The call examines what it gets and refuses with the first line of document 01 that applies; a refusal leaves
// every lent byte as it came. It has no requires.
#![tactic(auto)]

ghost use Rattle.std.specs.Prelude.{◌≡◌, [], ◌≤◌, ◌+◌, ◌<◌, ◌*◌, length, take};
ghost use Rattle.model.specs.Disc.{disc as disc_of};
ghost use Rattle.model.specs.Examine.{setting};
ghost use Rattle.model.specs.Once.{entries_held, commit_writes, icb_block};
ghost use Rattle.model.specs.Writes.{writes, upward};
ghost use Rattle.model.specs.Lent.{lent, Commits};
ghost use Rattle.model.specs.VatWritten.{data_sectors, written_data};

use address::{LogicalAddress, PhysicalAddress};
use model::{Cut, Record, Reply, SECTOR};
use refusal::Refusal;
use vat_file_written::Vat;

// Writes the VAT's data sectors upward from sector `first`, the call's first writes.
// Inside the layers: lines 1 to 16 have been tested, so the sectors are the disc's.
fn write_vat_data(disc: &mut [u8], marks: &mut [u8], first: PhysicalAddress, vat: &Vat, cut: Cut)
    requires n_in_bounds { (first.0 + data_sectors (length vat.now.entries.now) ≤ length marks.old) × (length marks.old ≤ 1048576) }
    requires disc_len { length disc.old ≡ 2048 * length marks.old }
    ensures { disc_of disc.new marks.new ≡ writes 1 cut (upward (data_sectors (length vat.now.entries.now)) first.0 (written_data vat.now.entries.now vat.now.previous.0) 0) (disc_of disc.old marks.old) }
{
    for i in 0..vat_file_written::data_sectors(vat.count()) {
        let mut data = [0u8; SECTOR];
        vat.write_data(&mut data, i);
        disc_writes::write_sector(disc, marks, address::up_from(first, i), &data, i + 1, cut);
    }
}

// Writes the VAT of the lent table's first N entries: its data upward from NWA, then its ICB.
// Inside the layers: every line of a commit has been tested.
fn write_vat(disc: &mut [u8], marks: &mut [u8], s: u32, table: &[u32], held: Record, cut: Cut)
    requires held_bound { (entries_held held ≤ 4096) × (entries_held held ≤ length table.now) }
    requires held_in_bounds { (s + icb_block held < length marks.old) × (length marks.old ≤ 1048576) }
    requires disc_len { length disc.old ≡ 2048 * length marks.old }
    ensures { disc_of disc.new marks.new ≡ writes 1 cut (commit_writes (setting [] s 0) (take (entries_held held) table.now) held) (disc_of disc.old marks.old) }
{
    let n = examine::entries_held(held);
    let next = examine::next_held(held);
    let last = examine::last_held(held);
    let vat = Vat {
        entries: &table[..n as usize],
        previous: last,
    };
    write_vat_data(disc, marks, address::sector_of(s, next), &vat, cut);
    let count = vat_file_written::data_sectors(n);
    let k = LogicalAddress(next.0 + count);
    let mut icb = [0u8; SECTOR];
    vat_icb_written::write_icb(&mut icb, k, &vat);
    let at = address::sector_of(s, k);
    disc_writes::write_sector(disc, marks, at, &icb, count + 1, cut);
}

// Commits: the VAT of the lent table, its data first and then its ICB.
pub fn commit(
    disc: &mut [u8],
    marks: &mut [u8],
    maps: &[u8],
    s: u32,
    l: u32,
    table: &[u32],
    held: Record,
    cut: Cut,
) -> Result<Reply, Refusal>
    ensures { Commits (lent disc.old marks.old maps.now s l)
        table.now held cut result (disc_of disc.new marks.new) }
{
    let lent = examine::is_lent(table);
    let volume = examine::judge_once(disc, marks, maps, s, l, table, lent, held)?;
    let span = volume.span;
    if !room::has_commit_room(span.length, held) {
        return Err(Refusal::NoRoom);
    }
    write_vat(disc, marks, span.start, table, held, cut);
    let n = examine::entries_held(held);
    if disc_writes::is_struck(cut, vat_file_written::data_sectors(n) + 1) {
        return Ok(Reply::Cut);
    }
    Ok(Reply::Done(room::committed(held)))
}
