// What the functions of this crate go by: the layout of a volume, and the entries of a table's sector. What always holds
// of one is a ghost field of it.
ghost use Rattle.std.specs.Prelude.{ℕ, ◌+◌, ◌*◌, ◌≤◌, ◌<◌, length, slice_index};

use maps::Volume;

// What a rewritable volume lies in: the volume, the sectors of the disc, and what its kind holds, taken out
// once: the number of its tables and the bytes of each. It has no ghost facts, since one is made of any volume
// and any numbers: what an examination has found of these is asked by clauses.
#[derive(Clone, Copy)]
pub struct Layout {
    pub volume: Volume,
    pub sectors: u32,
    pub count: u8,
    pub size: u32,
}

// The first `count` entries of a table's sector, which has room for them. The number is of two bytes as it is in the
// sector: a loop over a wider one is not compiled as well.
#[derive(Clone, Copy)]
pub struct Entries<'a> {
    pub sector: &'a [u8],
    pub count: u16,
    ghost in_bounds: { 56 + 8 * count ≤ length sector.now },
    ghost all_bytes: { (i : ℕ) → slice_index sector.now i < 256 },
}
