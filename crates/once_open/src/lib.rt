// The calls on a write-once disc that write no sector: opening, reading, freeing and fullness (document 01,
// "Calls and their sector writes"). Each examines what it gets and refuses with the first
// line of documents 01 and 02 that applies; a refusal leaves every lent byte as it came. No call has a requires.
#![tactic(auto)]

ghost use Rattle.std.specs.Prelude.{◌≡◌, ◌+◌, ◌*◌, ◌≤◌, ◌<◌, length};
ghost use Rattle.model.specs.Disc.{disc as disc_of};
ghost use Rattle.model.specs.Examine.{setting};
ghost use Rattle.model.specs.Once.{entries_held};
ghost use Rattle.once_open.specs.Calls.{opening_once, opened_once, PassedOver, block_of, reading_once, read_once_bytes, fullness_of};
ghost use Rattle.model.specs.Lent.{lent, Frees};

use address::{LogicalAddress, NONE, VirtualAddress};
use maps::Kind;
use model::{MOST_ENTRIES, Opened, Record, Reply, SECTOR};
use refusal::Refusal;

// The entries that a VAT has at most, beside those of one that can exceed any table.
const MOST_COUNT: u64 = MOST_ENTRIES as u64;

// ---- opening

// Opens the volume: finds the newest VAT on the disc, and fills the lent table with its entries.
pub fn open_write_once(
    disc: &[u8],
    marks: &[u8],
    maps: &[u8],
    s: u32,
    l: u32,
    table: &mut [u32],
) -> Result<Opened, Refusal>
    ensures value { result ≡ opening_once (setting maps.now s l) (disc_of disc.now marks.now) table.old }
    ensures table_after { table.new ≡ opened_once (setting maps.now s l) (disc_of disc.now marks.now) table.old }
    ensures passed_over { PassedOver (setting maps.now s l) (disc_of disc.now marks.now) result }
{
    let lent = examine::is_lent(table);
    let volume = examine::examine(disc, marks, maps, s, l, lent)?;
    if let Kind::Rewritable { .. } = volume.kind {
        return Err(Refusal::OtherKind);
    }
    let span = volume.span;
    let next = disc_marks::next_writable(marks, span.start, span.length);
    let k = vat_scan::scan(disc, marks, span.start, next).ok_or(Refusal::NoTable)?;
    let entries = vat_read::entry_count(disc, marks, span.start, k);
    if MOST_COUNT < entries {
        return Err(Refusal::TooManyEntries);
    }
    vat_read::fill(disc, marks, span.start, k, table);
    Ok(Opened {
        handed: Record::WriteOnce {
            entries: entries as u32,
            next: next.0,
            last: k.0,
        },
        passed: next.0 - 1 - k.0,
    })
}

// ---- reading and freeing

// Lines 12 and 13: there is an entry v, and it names a block. Inside the layers: line 11 has been tested.
fn look_up(table: &[u32], held: Record, v: VirtualAddress) -> Result<LogicalAddress, Refusal>
    requires { entries_held held ≤ length table.now }
    ensures { result ≡ block_of table.now held v }
{
    let n = examine::entries_held(held) as usize;
    address::virtual_to_logical(&table[..n], v)
}

// Reads virtual block v into the lent bytes.
pub fn read_virtual(
    disc: &[u8],
    marks: &[u8],
    maps: &[u8],
    s: u32,
    l: u32,
    table: &[u32],
    held: Record,
    v: u32,
    out: &mut [u8],
) -> Result<(), Refusal>
    ensures value { result ≡ reading_once (setting maps.now s l) (disc_of disc.now marks.now) table.now held v out.old }
    ensures out_after { out.new ≡ read_once_bytes (setting maps.now s l) (disc_of disc.now marks.now) table.now held v out.old }
{
    let lent = examine::are_lent(table, out, SECTOR);
    let volume = examine::judge_once(disc, marks, maps, s, l, table, lent, held)?;
    let b = look_up(table, held, VirtualAddress(v))?;
    let at = address::sector_of(volume.span.start, b);
    disc_read::judge_sector(marks, at)?;
    let from = SECTOR * at.0 as usize;
    out.copy_from_slice(&disc[from..from + SECTOR]);
    Ok(())
}

// Frees virtual block v: its entry becomes unused. It writes nothing to the disc.
pub fn free_virtual(
    disc: &[u8],
    marks: &[u8],
    maps: &[u8],
    s: u32,
    l: u32,
    table: &mut [u32],
    held: Record,
    v: u32,
) -> Result<Reply, Refusal>
    ensures { Frees (lent disc.now marks.now maps.now s l)
        table.old held v result table.new }
{
    let lent = examine::is_lent(table);
    examine::judge_once(disc, marks, maps, s, l, table, lent, held)?;
    let v = VirtualAddress(v);
    look_up(table, held, v)?;
    table[v.0 as usize] = NONE;
    Ok(Reply::Done(held))
}

// ---- fullness

// How full the partition is: 1,000 times NWA / L to the nearest.
pub fn fullness(
    disc: &[u8],
    marks: &[u8],
    maps: &[u8],
    s: u32,
    l: u32,
    table: &[u32],
    held: Record,
) -> Result<u32, Refusal>
    ensures { result ≡ fullness_of (setting maps.now s l) (disc_of disc.now marks.now) table.now held }
{
    let lent = examine::is_lent(table);
    let volume = examine::judge_once(disc, marks, maps, s, l, table, lent, held)?;
    let span = volume.span;
    let next = examine::next_held(held);
    Ok(label::per_mille(next.0, span.length))
}
