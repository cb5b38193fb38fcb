// The sector writes of the calls on a rewritable disc (document 01, "Calls and their sector writes"): a packet
// with one block replaced, a table to its copies, and the order in which a sparing writes these.
// The layers above count on the equations: disc and marks are left as the definition's writes leave them,
// whatever the cut, and the order is the definition's. All functions here are inside the layers: where one
// has a `requires`, the callers have tested it.
#![tactic(auto)]

ghost use Rattle.std.specs.Prelude.{◌≡◌, true, cond, ◌++◌, ℕ, ◌+◌, ◌*◌, ◌^◌, ◌≤◌, ◌<◌, length, get_or, take, eqb};
ghost use Rattle.model.specs.Disc.{disc as disc_of, sector};
ghost use Rattle.model.specs.Writes.{write, writes};
ghost use Rattle.model.specs.Sparing.{counts};
ghost use Rattle.model.specs.Rewrite.{packet_writes, replaced, copies_to};
ghost use Rattle.sparing_copy.specs.Layout.{geometry_in, TablesOn};
ghost use Rattle.sparing_writes.specs.Order.{numbers_of, is_of, chosen, order_of};

use address::{MediaBlockAddress, PhysicalAddress};
use maps::PACKET;
use model::Cut;
use sparing_copy::Layout;

// Writes a sector of a packet of which the block at sector `place` is replaced: that block's new bytes, or
// the sector's own. Inside the layers: the sector is one of the disc's, line 1 has been tested, and a block's
// bytes are lent.
fn write_picked(
    disc: &mut [u8],
    marks: &mut [u8],
    at: PhysicalAddress,
    place: PhysicalAddress,
    block: &[u8],
    number: u32,
    cut: Cut,
)
    requires at_in_bounds { at.0 < length marks.old }
    requires disc_len { length disc.old ≡ 2048 * length marks.old }
    requires block_len { length block.now ≡ 2048 }
    ensures { disc_of disc.new marks.new
        ≡ write number cut at.0 (cond (eqb at.0 place.0) block.now (sector (disc_of disc.old marks.old) at.0)) (disc_of disc.old marks.old) }
{
    if at.0 == place.0 {
        disc_writes::write_sector(disc, marks, at, block, number, cut);
    } else {
        disc_writes::write_again(disc, marks, at, at, number, cut);
    }
}

// Rewrites the packet at sector `first` with its block number `i` replaced: 32 writes upward, the call's first.
// Inside the layers: the packet is on the disc, line 1 has been tested, and a block's bytes are lent.
pub fn write_block(
    disc: &mut [u8],
    marks: &mut [u8],
    first: PhysicalAddress,
    i: u32,
    block: &[u8],
    cut: Cut,
)
    requires first_in_bounds { (first.0 + 32 ≤ length marks.old) × (i < 32) × (length marks.old ≤ 1048576) }
    requires disc_len { length disc.old ≡ 2048 * length marks.old }
    requires block_len { length block.now ≡ 2048 }
    ensures { disc_of disc.new marks.new
        ≡ writes 1 cut (packet_writes first.0 (replaced (disc_of disc.old marks.old) first.0 i block.now)) (disc_of disc.old marks.old) }
{
    let place = address::up_from(first, i);
    for k in 0..PACKET {
        write_picked(
            disc,
            marks,
            address::up_from(first, k),
            place,
            block,
            k + 1,
            cut,
        );
    }
}

// The sectors of a volume's tables.
pub fn table_places(tables: [u32; 4]) -> [PhysicalAddress; 4]
    ensures { numbers_of result ≡ tables }
{
    tables.map(|t| address::media_to_physical(MediaBlockAddress(t)))
}

// Writes the same sector's bytes to some sectors; the first of these writes has the number `number`. Inside
// the layers: the sectors are the disc's, line 1 has been tested, and a sector's bytes are lent.
pub fn write_copies(
    disc: &mut [u8],
    marks: &mut [u8],
    places: &[PhysicalAddress],
    bytes: &[u8],
    number: u32,
    cut: Cut,
)
    requires by_index { (i : ℕ) → i < length places.now → get_or (numbers_of places.now) i 0 < length marks.old }
    requires disc_len { length disc.old ≡ 2048 * length marks.old }
    requires bytes_len { length bytes.now ≡ 2048 }
    requires numbered { number + length places.now < 2 ^ 32 }
    ensures { disc_of disc.new marks.new ≡ writes number cut (copies_to (numbers_of places.now) bytes.now) (disc_of disc.old marks.old) }
{
    for (k, place) in places.iter().enumerate() {
        disc_writes::write_sector(disc, marks, *place, bytes, number + k as u32, cut);
    }
}

// Whether the copy at sector `t` counts and is of this sequence, where the copy at sector `at` counts.
// Inside the layers: the sectors are the disc's, and lines 1 and 5 have been tested.
fn is_of(
    disc: &[u8],
    marks: &[u8],
    x: Layout,
    t: PhysicalAddress,
    sequence: u32,
    at: PhysicalAddress,
) -> bool
    requires count_bound { (x.count ≤ 4) × (x.size ≤ 2048) }
    requires disc_len { length disc.now ≡ 2048 * length marks.now }
    requires t_in_bounds { (t.0 < length marks.now) × (at.0 < length marks.now) }
    requires at_value { counts (disc_of disc.now marks.now) (geometry_in x) at.0 ≡ true }
    ensures { result ≡ is_of (disc_of disc.now marks.now) (geometry_in x) sequence t.0 }
{
    let is_own = sparing_copies::sequence_at(disc, t) == sequence;
    is_own && sparing_copies::counts_beside(disc, marks, x, t, at)
}

// Puts the tables of this sequence, or all others, as is wanted, in map order into four places, from number `before` on,
// and gives the number behind them. Inside the layers: lines 1, 5 and 6 have been tested, the copy at sector `at` counts,
// and there is room for them.
fn gather(
    disc: &[u8],
    marks: &[u8],
    x: Layout,
    sequence: u32,
    at: PhysicalAddress,
    wanted: bool,
    places: &mut [PhysicalAddress; 4],
    before: usize,
) -> usize
    requires count_bound { (x.count ≤ 4) × (x.size ≤ 2048) }
    requires disc_len { length disc.now ≡ 2048 * length marks.now }
    requires sectors_value { (x.sectors ≡ length marks.now) × TablesOn x }
    requires at_in_bounds { at.0 < length marks.now }
    requires at_value { counts (disc_of disc.now marks.now) (geometry_in x) at.0 ≡ true }
    requires room { before + length (chosen (disc_of disc.now marks.now) (geometry_in x) sequence wanted (geometry_in x).tables) ≤ 4 }
    ensures count_value { result ≡ before + length (chosen (disc_of disc.now marks.now) (geometry_in x) sequence wanted (geometry_in x).tables) }
    ensures places_value { take result (numbers_of places.new) ≡ take before (numbers_of places.old) ++ chosen (disc_of disc.now marks.now) (geometry_in x) sequence wanted (geometry_in x).tables }
{
    let tables = x.tables();
    let mut count = before;
    for table in tables {
        let t = address::media_to_physical(MediaBlockAddress(*table));
        if is_of(disc, marks, x, t, sequence, at) == wanted {
            places[count] = t;
            count += 1;
        }
    }
    count
}

// The order in which a sparing writes the copies: the tables that are not of the current sequence, then those
// that are, each in map order. Inside the layers: lines 1, 5 and 6 have been tested, and the copy at sector
// `at` counts.
pub fn copy_order(
    disc: &[u8],
    marks: &[u8],
    x: Layout,
    sequence: u32,
    at: PhysicalAddress,
) -> [PhysicalAddress; 4]
    requires count_bound { (x.count ≤ 4) × (x.size ≤ 2048) }
    requires disc_len { length disc.now ≡ 2048 * length marks.now }
    requires sectors_value { (x.sectors ≡ length marks.now) × TablesOn x }
    requires at_in_bounds { at.0 < length marks.now }
    requires at_value { counts (disc_of disc.now marks.now) (geometry_in x) at.0 ≡ true }
    ensures result_value { take x.count (numbers_of result) ≡ order_of (disc_of disc.now marks.now) (geometry_in x) sequence }
    ensures by_index { (i : ℕ) → i < x.count → get_or (numbers_of result) i 0 < length marks.now }
{
    let mut places = [at; 4];
    let others = gather(disc, marks, x, sequence, at, false, &mut places, 0);
    gather(disc, marks, x, sequence, at, true, &mut places, others);
    places
}
