// Map lists and VAT files as the numbers that C lends and is given (document 01, "The disc and its addresses";
// "The plain store", its last paragraph).
// The layers above count on read_maps, write_maps and look_up: each answers for any numbers and bytes, with the
// number of the first refusal that applies.
#![tactic(auto)]

ghost use Rattle.std.specs.Prelude.{◌≡◌, cond, List, ℕ, length, get_or, ltb};
ghost use Rattle.refusal.specs.Number.{answer_number};
ghost use Rattle.maps.specs.Kinds.{read_maps, volume_read};
ghost use Rattle.maps.specs.Numbers.{volume_numbers};
ghost use Rattle.maps_written.specs.Writing.{written_or};
ghost use Rattle.call_lists.specs.Lists.{maps_verdict, volume_after, volume_for, lent_verdict, lent_look_up, logical_after};

use address::{Span, VirtualAddress};
use maps::{Kind, Volume};
use model::DONE;
use refusal::Refusal;

// The lengths of the lent results: of a map list, and of look-up and fullness.
const VOLUME: usize = 8;

pub const ONE: usize = 1;

// More tables than a map list can have.
const TOO_MANY: usize = 5;

// ---- a map list read

// Puts the numbers of a volume into a lent result: kind, partition number, number of tables, bytes of each, and
// the four table sectors. Inside the layers: the length has been tested.
fn put_volume(res: &mut [u32], volume: Volume)
    requires { length res.old ≡ 8 }
    ensures { res.new ≡ volume_numbers volume }
{
    res[4..].copy_from_slice(&volume.tables);
    match volume.kind {
        Kind::WriteOnce { partition } => {
            res[0] = call_numbers::WRITE_ONCE;
            res[1] = partition as u32;
            res[2] = 0;
            res[3] = 0;
        }
        Kind::Rewritable {
            partition,
            tables: count,
            size,
        } => {
            res[0] = call_numbers::REWRITABLE;
            res[1] = partition as u32;
            res[2] = count as u32;
            res[3] = size;
        }
    }
}

// Reads a map list.
pub fn read_maps(maps: &[u8], res: &mut [u32]) -> u32
    ensures value { result ≡ answer_number (maps_verdict maps.now res.old) }
    ensures res_after { res.new ≡ volume_after (maps_verdict maps.now res.old)
        (volume_read (read_maps maps.now)) res.old }
{
    if res.len() != VOLUME {
        return u32::from(Refusal::LentLength);
    }
    match maps::read_maps(maps) {
        Ok(volume) => {
            put_volume(res, volume);
            DONE
        }
        Err(why) => u32::from(why),
    }
}

// ---- a map list written

// The number at a place, 0 past the end.
fn number_at(tables: &[u32], i: usize) -> u32
    ensures { result ≡ get_or tables.now i 0 }
{
    tables.get(i).copied().unwrap_or(0)
}

// The number of tables, all those that are too many being alike.
fn table_count(tables: &[u32]) -> u8
    ensures { result ≡ cond (ltb (length tables.now) 5) (length tables.now) 5 }
{
    let n = tables.len();
    if n < TOO_MANY {
        return n as u8;
    }
    TOO_MANY as u8
}

// Writes the map list of a rewritable volume.
fn write_rewritable(partition: u16, size: u32, tables: &[u32], out: &mut [u8]) -> u32
    ensures value { result ≡ answer_number (lent_verdict 1 partition size tables.now out.old) }
    ensures out_after { out.new ≡ written_or (lent_verdict 1 partition size tables.now out.old)
        (volume_for 1 partition size tables.now) out.old }
{
    let count = table_count(tables);
    let a = number_at(tables, 0);
    let b = number_at(tables, 1);
    let c = number_at(tables, 2);
    let d = number_at(tables, 3);
    let volume = Volume {
        span: Span {
            start: 0,
            length: 0,
        },
        kind: Kind::Rewritable {
            partition,
            tables: count,
            size,
        },
        tables: [a, b, c, d],
    };
    call_numbers::number_of(&maps_written::write_maps(volume, out))
}

// Writes the map list of a write-once volume.
fn write_once_maps(partition: u16, out: &mut [u8]) -> u32
    ensures by_index { (size : ℕ) (tables : List ℕ) → result ≡ answer_number (lent_verdict 0 partition size tables out.old) }
    ensures by_index_2 { (size : ℕ) (tables : List ℕ) → out.new
        ≡ written_or (lent_verdict 0 partition size tables out.old) (volume_for 0 partition size tables) out.old }
{
    let volume = Volume {
        span: Span {
            start: 0,
            length: 0,
        },
        kind: Kind::WriteOnce { partition },
        tables: [0; 4],
    };
    call_numbers::number_of(&maps_written::write_maps(volume, out))
}

// Writes a map list.
// The C interface needs the number of a kind (`tuormik_write_maps`).
pub fn write_maps(kind: u32, partition: u16, size: u32, tables: &[u32], out: &mut [u8]) -> u32
    ensures value { result ≡ answer_number (lent_verdict kind partition size tables.now out.old) }
    ensures out_after { out.new ≡ written_or (lent_verdict kind partition size tables.now out.old)
        (volume_for kind partition size tables.now) out.old }
{
    match kind {
        call_numbers::WRITE_ONCE => write_once_maps(partition, out),
        call_numbers::REWRITABLE => write_rewritable(partition, size, tables, out),
        _ => u32::from(Refusal::NeitherKind),
    }
}

// ---- an entry looked up

// Looks up virtual block v in the bytes of a VAT file.
pub fn look_up(file: &[u8], v: u32, res: &mut [u32]) -> u32
    ensures value { result ≡ answer_number (lent_look_up file.now v res.old) }
    ensures res_after { res.new ≡ logical_after (lent_look_up file.now v res.old) res.old }
{
    if res.len() != ONE {
        return u32::from(Refusal::LentLength);
    }
    match vat_look_up::look_up(file, VirtualAddress(v)) {
        Ok(b) => {
            res[0] = b.0;
            DONE
        }
        Err(why) => u32::from(why),
    }
}
