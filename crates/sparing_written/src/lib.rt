// The sector of a sparing table (document 01, "The sparing table" and "Calls and their sector writes"; 02, slip 1):
// written once a packet is spared, and when a volume is made.
// The layers above count on the equations: each function gives what the definition of its name gives.
// All functions here are inside the layers: where one has a `requires`, the callers have tested it.
#![tactic(auto)]

ghost use Rattle.std.specs.Prelude.{◌≡◌, [], ◌∷◌, ◌+◌, ◌*◌, ◌≤◌, ◌<◌, length, take};
ghost use Rattle.fields.specs.Bytes.{splice};
ghost use Rattle.fields.specs.Number.{quads};
ghost use Rattle.model.specs.Sparing.{entries, flat, resorted, written_table};
ghost use Rattle.model.specs.Both.{spare_entries};
ghost use Rattle.sparing_table.specs.Table.{has, place_where};
ghost use Rattle.sparing_written.specs.Written.{begun, spared_numbers, respared_numbers, Ordered};

use address::LogicalAddress;
use fields::Number;
use sparing_copy::{
    COUNT_AT, DEFECTIVE, ENTRIES_AT, ENTRY, FREE, NUMBER, REGID, REGID_AT, SEQUENCE_AT,
};

// Writes the fields of a table's sector up to its entries, and 0 after that.
fn begin_table(sector: &mut [u8], entries: u16, sequence: u32)
    requires { length sector.old ≡ 2048 }
    ensures { sector.new ≡ begun sequence entries }
{
    fields_written::clear(sector);
    fields_written::write_regid(sector, REGID_AT, &REGID);
    entries.write(sector, COUNT_AT);
    sequence.write(sector, SEQUENCE_AT);
}

// Writes an entry at place `i` of a table's sector.
fn put_entry(sector: &mut [u8], i: usize, original: u32, mapped: u32)
    requires { 64 + 8 * i ≤ length sector.old }
    ensures { sector.new ≡ splice sector.old (56 + 8 * i) (quads (original ∷ mapped ∷ [])) }
{
    let at = ENTRIES_AT + ENTRY * i;
    original.write(sector, at);
    mapped.write(sector, at + NUMBER);
}

// Writes numbers in a row, from place `i` of the entries on.
fn put_numbers(sector: &mut [u8], i: usize, numbers: &[u32])
    requires { 56 + 8 * i + 4 * length numbers.now ≤ length sector.old }
    ensures { sector.new ≡ splice sector.old (56 + 8 * i) (quads numbers.now) }
{
    fields_written::write_numbers(sector, ENTRIES_AT + ENTRY * i, numbers);
}

// Writes the entries once packet `p` took the free entry at place `free`: those before `place` stay, then
// comes its own, those from there to `free` move up by one, and those behind `free` stay.
fn put_spared(
    sector: &mut [u8],
    table: &[u32],
    n: usize,
    p: LogicalAddress,
    place: usize,
    free: usize,
)
    requires { (place ≤ free) × (free < n) × (2 * n ≤ length table.now) × (56 + 8 * n ≤ length sector.old) }
    ensures { sector.new ≡ splice sector.old 56 (quads (spared_numbers table.now n p.0 place free)) }
{
    let below = 2 * place;
    let taken = 2 * free;
    let behind = taken + 2;
    let end = 2 * n;
    put_numbers(sector, 0, &table[..below]);
    put_entry(sector, place, p.0, table[taken + 1]);
    put_numbers(sector, place + 1, &table[below..taken]);
    put_numbers(sector, free + 1, &table[behind..end]);
}

// Writes the entries once packet `p`, which has the entry at place `own`, took the free entry at place `free`: its
// own entry is mapped there, and in the place of the free one, behind the other defective ones, stands its old spare.
// All others stay.
fn put_respared(
    sector: &mut [u8],
    table: &[u32],
    n: usize,
    p: LogicalAddress,
    own: usize,
    free: usize,
)
    requires { (own < free) × (free < n) × (2 * n ≤ length table.now) × (56 + 8 * n ≤ length sector.old) }
    ensures { sector.new ≡ splice sector.old 56 (quads (respared_numbers table.now n p.0 own free)) }
{
    let below = 2 * own;
    let above = below + 2;
    let taken = 2 * free;
    let behind = taken + 2;
    let end = 2 * n;
    put_numbers(sector, 0, &table[..below]);
    put_entry(sector, own, p.0, table[taken + 1]);
    put_numbers(sector, own + 1, &table[above..taken]);
    put_entry(sector, free, DEFECTIVE, table[below + 1]);
    put_numbers(sector, free + 1, &table[behind..end]);
}

// Writes the entries once packet `p`, spared before or not, took the free entry at place `free`, which is that of
// lowest index.
fn put_taken(sector: &mut [u8], table: &[u32], n: usize, p: LogicalAddress, free: usize)
    requires free_lt_n { (free < n) × (2 * n ≤ length table.now) × (56 + 8 * n ≤ length sector.old) × (p.0 < 0xfffffff0) }
    requires free_value { free ≡ place_where (has 0xffffffff) (entries (take (2 * n) table.now)) }
    requires ordered { Ordered (entries (take (2 * n) table.now)) }
    ensures { sector.new ≡ splice sector.old 56 (quads (flat (resorted (entries (take (2 * n) table.now)) p.0))) }
{
    let end = 2 * n;
    match sparing_table::find_entry(&table[..end], p.0) {
        Some(own) => put_respared(sector, table, n, p, own, free),
        None => {
            let place = sparing_table::find_above(&table[..end], p).unwrap_or(n);
            put_spared(sector, table, n, p, place, free);
        }
    }
}

// Writes the sector of the table once packet `p`, spared before or not, took the free entry of lowest index,
// resorted. The lent table is not changed.
pub fn write_spared(sector: &mut [u8], table: &[u32], r: u32, p: LogicalAddress, sequence: u32)
    requires sector_len { length sector.old ≡ 2048 }
    requires r_bound { (56 + 8 * r ≤ 2048) × (2 * r ≤ length table.now) × (p.0 < 0xfffffff0) }
    requires ordered { Ordered (entries (take (2 * r) table.now)) }
    ensures { sector.new ≡ written_table sequence (flat (resorted (entries (take (2 * r) table.now)) p.0)) }
{
    let n = r as usize;
    let end = 2 * n;
    let free = sparing_table::find_entry(&table[..end], FREE).unwrap();
    begin_table(sector, r as u16, sequence);
    put_taken(sector, table, n, p, free);
}

// Writes free entries for a list of spares.
fn put_free(sector: &mut [u8], spares: &[u32])
    requires { 56 + 8 * length spares.now ≤ length sector.old }
    ensures { sector.new ≡ splice sector.old 56 (quads (flat (spare_entries spares.now))) }
{
    for (i, spare) in spares.iter().enumerate() {
        put_entry(sector, i, FREE, *spare);
    }
}

// Writes the sector of a table that is made: a list of spares, all free, and sequence 0.
pub fn write_free(sector: &mut [u8], spares: &[u32])
    requires sector_len { length sector.old ≡ 2048 }
    requires spares_bound { 56 + 8 * length spares.now ≤ 2048 }
    ensures { sector.new ≡ written_table 0 (flat (spare_entries spares.now)) }
{
    begin_table(sector, spares.len() as u16, 0);
    put_free(sector, spares);
}
