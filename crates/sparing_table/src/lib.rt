// The lent sparing table (document 01, "The sparing table" and "Calls and their sector writes"): compared
// with a sector, filled from one, and an entry looked for in it.
// The layers above count on the equations: each function gives what the definition of its name gives.
// All functions here are inside the layers: where one has a `requires`, the callers have tested it.
#![tactic(auto)]

ghost use Rattle.std.specs.Prelude.{◌≡◌, ◌+◌, ◌*◌, ◌%◌, ◌^◌, ◌≤◌, ◌<◌, length, take, position, IfSome};
ghost use Rattle.fields.specs.Bytes.{same};
ghost use Rattle.fields.specs.Number.{field};
ghost use Rattle.maps.specs.Kinds.{absent};
ghost use Rattle.model.specs.Sparing.{entries, free_of, mapped_of, count_in, table_in, locate};
ghost use Rattle.model.specs.Once.{filled_from};
ghost use Rattle.sparing_table.specs.Table.{has, above, free_in};

use address::{LogicalAddress, PhysicalAddress};
use fields::Number;
use sparing_copy::{COUNT_AT, ENTRIES_AT, FREE, NUMBER};

// Number `i` of the entries of a table's sector, original and mapped by turns.
fn number_at(b: &[u8], i: usize) -> u32
    requires { 60 + 4 * i ≤ length b.now }
    ensures { result ≡ field b.now (56 + 4 * i) 4 }
{
    u32::read(b, ENTRIES_AT + NUMBER * i)
}

// Whether the first `r` entries of the lent table are those of a sector, which has as many.
pub fn is_same(b: &[u8], table: &[u32], r: u32) -> bool
    requires b_len { length b.now ≡ 2048 }
    requires r_value { (r ≡ count_in b.now) × (56 + 8 * r ≤ 2048) × (2 * r ≤ length table.now) }
    ensures { result ≡ same (take (2 * r) table.now) (table_in b.now) }
{
    let n = 2 * r as usize;
    for i in 0..n {
        if table[i] != number_at(b, i) {
            return false;
        }
    }
    true
}

// Fills the lent table from its start with the entries of a sector; places beyond are kept.
pub fn fill_table(b: &[u8], table: &mut [u32])
    requires b_len { length b.now ≡ 2048 }
    requires b_bound { (56 + 8 * count_in b.now ≤ 2048) × (2 * count_in b.now ≤ length table.old) }
    ensures { table.new ≡ filled_from (table_in b.now) table.old }
{
    let n = 2 * usize::from(u16::read(b, COUNT_AT));
    for k in 0..n {
        table[k] = number_at(b, k);
    }
}

// The place of the first entry with this original, where entries are numbers, original and mapped by turns.
pub fn find_entry(numbers: &[u32], original: u32) -> Option<usize>
    ensures value { result ≡ position (has original) (entries numbers.now) }
    ensures bound { IfSome result (λ i. 2 * i + 2 ≤ length numbers.now) }
{
    numbers
        .chunks_exact(2)
        .position(|entry| entry[0] == original)
}

// The place of the first entry with a higher original than `p`.
pub fn find_above(numbers: &[u32], p: LogicalAddress) -> Option<usize>
    ensures value { result ≡ position (above p.0) (entries numbers.now) }
    ensures bound { IfSome result (λ i. 2 * i + 2 ≤ length numbers.now) }
{
    numbers.chunks_exact(2).position(|entry| p.0 < entry[0])
}

// Whether none of the first `n` entries of the lent table, of whatever kind, is mapped to `m`. It looks at each, with no
// early way out.
pub fn is_unmapped(table: &[u32], n: usize, m: PhysicalAddress) -> bool
    requires { 2 * n ≤ length table.now }
    ensures { result ≡ absent m.0 (mapped_of (entries (take (2 * n) table.now))) }
{
    let mut none = true;
    for i in 0..n {
        if table[2 * i + 1] == m.0 {
            none = false;
        }
    }
    none
}

// The sector at which the packet that begins at block `p` is read, in a partition that starts at `s`.
pub fn find_packet(table: &[u32], r: u32, s: u32, p: LogicalAddress) -> PhysicalAddress
    requires r_in_bounds { 2 * r ≤ length table.now }
    requires p_value { (p.0 % 32 ≡ 0) × (s + p.0 < 2 ^ 32) }
    ensures { result.0 ≡ locate s (entries (take (2 * r) table.now)) p.0 }
{
    let end = 2 * r as usize;
    match find_entry(&table[..end], p.0) {
        Some(i) => address::mapped_to_physical(table[2 * i + 1]),
        None => address::sector_of(s, p),
    }
}

// The mapped start of the free entry of lowest index, the first with the original of a free spare, if there is one.
pub fn first_free(table: &[u32], r: u32) -> Option<PhysicalAddress>
    requires { 2 * r ≤ length table.now }
    ensures { result ≡ free_in (free_of (entries (take (2 * r) table.now))) }
{
    let end = 2 * r as usize;
    let i = find_entry(&table[..end], FREE)?;
    Some(address::mapped_to_physical(table[2 * i + 1]))
}
