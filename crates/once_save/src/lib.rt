// Saving a block on a write-once disc (document 01, "Calls and their sector writes"). The call examines what it
// gets and refuses with the first line of document 01 that applies; a refusal leaves every lent byte as it
// came. It has no requires.
#![tactic(auto)]

ghost use Rattle.std.specs.Prelude.{◌≡◌, List, ◌≤◌, ℕ, length};
ghost use Rattle.refusal.specs.Tests.{first};
ghost use Rattle.model.specs.Disc.{disc as disc_of};
ghost use Rattle.model.specs.Examine.{setting};
ghost use Rattle.model.specs.Once.{entries_held, next_held, save_tests};
ghost use Rattle.vat_read.specs.File.{Lent};
ghost use Rattle.model.specs.Lent.{lent, Saves};

use address::{Span, VirtualAddress};
use model::{Cut, Record, Reply, SECTOR};
use refusal::Refusal;

// Lines 12, 15 and 16. Inside the layers: lines 1 to 11 have been tested.
fn judge_save(
    disc: &[u8],
    marks: &[u8],
    span: Span,
    held: Record,
    v: VirtualAddress,
    block: &[u8],
) -> Result<(), Refusal>
    requires lent { Lent disc.now marks.now span.start (next_held held) }
    requires block_len { length block.now ≡ 2048 }
    requires held_bound { entries_held held ≤ 4096 }
    ensures { (maps : List ℕ) → result ≡ first (save_tests (setting maps span.start span.length) (disc_of disc.now marks.now) held v.0 block.now) }
{
    if !room::is_number(held, v) {
        return Err(Refusal::NumberOutside);
    }
    let next = examine::next_held(held);
    if vat_read::passes(disc, marks, span.start, next, block) {
        return Err(Refusal::PassesAsIcb);
    }
    if !room::has_room(span.length, held, v) {
        return Err(Refusal::NoRoom);
    }
    Ok(())
}

// Saves a block as virtual block v, at NWA.
pub fn save_virtual(
    disc: &mut [u8],
    marks: &mut [u8],
    maps: &[u8],
    s: u32,
    l: u32,
    table: &mut [u32],
    held: Record,
    v: u32,
    block: &[u8],
    cut: Cut,
) -> Result<Reply, Refusal>
    ensures { Saves (lent disc.old marks.old maps.now s l)
        table.old held v block.now cut
        result (disc_of disc.new marks.new) table.new }
{
    let lent = examine::are_lent(table, block, SECTOR);
    let volume = examine::judge_once(disc, marks, maps, s, l, table, lent, held)?;
    let span = volume.span;
    let v = VirtualAddress(v);
    judge_save(disc, marks, span, held, v, block)?;
    let next = examine::next_held(held);
    let at = address::sector_of(span.start, next);
    disc_writes::write_sector(disc, marks, at, block, 1, cut);
    if disc_writes::is_struck(cut, 1) {
        return Ok(Reply::Cut);
    }
    table[v.0 as usize] = next.0;
    Ok(Reply::Done(room::saved(held, v)))
}
