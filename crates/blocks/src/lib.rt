// What callers use: every call on a disc of either kind (document 01, "Calls and their sector writes").
// Opening, reading and making are calls of both kinds, told by the map list; the others are for one kind, and
// refuse the other with line 7. Each promise covers the answer and every lent byte after the call, refusals
// too. No call has a requires.
#![tactic(auto)]

ghost use Rattle.std.specs.Prelude.{◌≡◌, ℕ};
ghost use Rattle.model.specs.Disc.{disc as disc_of};
ghost use Rattle.model.specs.Examine.{setting, write_once};
ghost use Rattle.model.specs.Lent.{lent, Opens, Reads, Makes, Saves, Frees, Commits, SavesBlock, SavesPacket, Spares};
ghost use Rattle.model.specs.Forecast.{Forecasts};
ghost use Rattle.once_open.specs.Calls.{Measures};

use maps::Kind;
use model::{Cut, Forecast, Opened, Record, Reply};
use refusal::Refusal;

// The bytes of a rewritable volume's map list.
const REWRITABLE: usize = 64;

// Whether the map list is of a write-once volume. One that is refused counts as such: each half refuses it
// with the same line. The length tells a write-once list at once.
fn is_write_once(maps: &[u8]) -> bool
    ensures { (s l : ℕ) → result ≡ write_once (setting maps.now s l) }
{
    if maps.len() != REWRITABLE {
        return true;
    }
    let volume = maps::volume_read(maps::read_maps(maps));
    match volume.kind {
        Kind::WriteOnce { .. } => true,
        Kind::Rewritable { .. } => false,
    }
}

// ---- both kinds

// Opens the volume: finds the table on the disc, and fills the lent one with it.
pub fn open(
    disc: &[u8],
    marks: &[u8],
    maps: &[u8],
    s: u32,
    l: u32,
    table: &mut [u32],
) -> Result<Opened, Refusal>
    ensures { Opens (lent disc.now marks.now maps.now s l)
        table.old result table.new }
{
    if is_write_once(maps) {
        return once_open::open_write_once(disc, marks, maps, s, l, table);
    }
    rewrite_open::open_rewritable(disc, marks, maps, s, l, table)
}

// Reads block number v into the lent bytes.
pub fn read(
    disc: &[u8],
    marks: &[u8],
    maps: &[u8],
    s: u32,
    l: u32,
    table: &[u32],
    held: Record,
    v: u32,
    out: &mut [u8],
) -> Result<(), Refusal>
    ensures { Reads (lent disc.now marks.now maps.now s l)
        table.now held v out.old result out.new }
{
    if is_write_once(maps) {
        return once_open::read_virtual(disc, marks, maps, s, l, table, held, v, out);
    }
    rewrite_open::read_block(disc, marks, maps, s, l, table, held, v, out)
}

// Makes the volume: a blank write-once partition gets an empty VAT; a rewritable one gets packets of zeros, the
// lent list of spares, and tables of sequence 0. The spares are not looked at on a write-once disc.
pub fn make(
    disc: &mut [u8],
    marks: &mut [u8],
    maps: &[u8],
    s: u32,
    l: u32,
    spares: &[u32],
) -> Result<(), Refusal>
    ensures { Makes (lent disc.old marks.old maps.now s l)
        spares.now result (disc_of disc.new marks.new) }
{
    if is_write_once(maps) {
        return make_volume::make_write_once(disc, marks, maps, s, l);
    }
    make_volume::make_rewritable(disc, marks, maps, s, l, spares)
}

// ---- write-once discs

// Saves a block as virtual block v, at NWA.
pub fn save_virtual(
    disc: &mut [u8],
    marks: &mut [u8],
    maps: &[u8],
    s: u32,
    l: u32,
    table: &mut [u32],
    held: Record,
    v: u32,
    block: &[u8],
    cut: Cut,
) -> Result<Reply, Refusal>
    ensures { Saves (lent disc.old marks.old maps.now s l)
        table.old held v block.now cut
        result (disc_of disc.new marks.new) table.new }
{
    once_save::save_virtual(disc, marks, maps, s, l, table, held, v, block, cut)
}

// Frees virtual block v: its entry becomes unused. It writes nothing to the disc.
pub fn free_virtual(
    disc: &[u8],
    marks: &[u8],
    maps: &[u8],
    s: u32,
    l: u32,
    table: &mut [u32],
    held: Record,
    v: u32,
) -> Result<Reply, Refusal>
    ensures { Frees (lent disc.now marks.now maps.now s l)
        table.old held v result table.new }
{
    once_open::free_virtual(disc, marks, maps, s, l, table, held, v)
}

// Commits: writes the VAT and its ICB at NWA.
pub fn commit(
    disc: &mut [u8],
    marks: &mut [u8],
    maps: &[u8],
    s: u32,
    l: u32,
    table: &[u32],
    held: Record,
    cut: Cut,
) -> Result<Reply, Refusal>
    ensures { Commits (lent disc.old marks.old maps.now s l)
        table.now held cut result (disc_of disc.new marks.new) }
{
    once_commit::commit(disc, marks, maps, s, l, table, held, cut)
}

// How full the partition is, in per mille.
pub fn fullness(
    disc: &[u8],
    marks: &[u8],
    maps: &[u8],
    s: u32,
    l: u32,
    table: &[u32],
    held: Record,
) -> Result<u32, Refusal>
    ensures { Measures (lent disc.now marks.now maps.now s l)
        table.now held result }
{
    once_open::fullness(disc, marks, maps, s, l, table, held)
}

// What a list of saves and commits would come to.
pub fn forecast(
    disc: &[u8],
    marks: &[u8],
    maps: &[u8],
    s: u32,
    l: u32,
    table: &[u32],
    held: Record,
    items: &[u32],
) -> Result<Forecast, Refusal>
    ensures { Forecasts (lent disc.now marks.now maps.now s l)
        table.now held items.now result }
{
    once_forecast::forecast(disc, marks, maps, s, l, table, held, items)
}

// ---- rewritable discs

// Saves a block as block b: its packet is written again with this block replaced.
pub fn save_block(
    disc: &mut [u8],
    marks: &mut [u8],
    maps: &[u8],
    s: u32,
    l: u32,
    table: &[u32],
    held: Record,
    b: u32,
    block: &[u8],
    cut: Cut,
) -> Result<Reply, Refusal>
    ensures { SavesBlock (lent disc.old marks.old maps.now s l)
        table.now held b block.now cut result (disc_of disc.new marks.new) }
{
    rewrite_save::save_block(disc, marks, maps, s, l, table, held, b, block, cut)
}

// Saves the packet that begins at block b.
pub fn save_packet(
    disc: &mut [u8],
    marks: &mut [u8],
    maps: &[u8],
    s: u32,
    l: u32,
    table: &[u32],
    held: Record,
    b: u32,
    packet: &[u8],
    cut: Cut,
) -> Result<Reply, Refusal>
    ensures { SavesPacket (lent disc.old marks.old maps.now s l)
        table.now held b packet.now cut result (disc_of disc.new marks.new) }
{
    rewrite_save::save_packet(disc, marks, maps, s, l, table, held, b, packet, cut)
}

// Spares the packet that begins at block b: its bytes go to a free spare, and the table to every copy.
pub fn spare_packet(
    disc: &mut [u8],
    marks: &mut [u8],
    maps: &[u8],
    s: u32,
    l: u32,
    table: &mut [u32],
    held: Record,
    b: u32,
    packet: &[u8],
    cut: Cut,
) -> Result<Reply, Refusal>
    ensures { Spares (lent disc.old marks.old maps.now s l)
        table.old held b packet.now cut
        result (disc_of disc.new marks.new) table.new }
{
    rewrite_spare::spare_packet(disc, marks, maps, s, l, table, held, b, packet, cut)
}
