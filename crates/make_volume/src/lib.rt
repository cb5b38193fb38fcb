// Making a volume of either kind (document 01, "Calls and their sector writes"). Each call examines what it gets
// and refuses with the first line of document 01 that applies; a refusal leaves every lent byte as it came. No
// call has a requires.
#![tactic(auto)]

ghost use Rattle.std.specs.Prelude.{◌≡◌, [], ◌∷◌, ◌<◌, ◌*◌, ◌+◌, ◌≤◌, length};
ghost use Rattle.model.specs.Disc.{disc as disc_of};
ghost use Rattle.model.specs.Vat.{none};
ghost use Rattle.model.specs.Examine.{setting};
ghost use Rattle.make_volume.specs.WriteOnce.{make_once_verdict, made_once, JudgedBlank};
ghost use Rattle.model.specs.Writes.{no_cut, writes};
ghost use Rattle.model.specs.VatWritten.{written_icb};
ghost use Rattle.sparing_copy.specs.Layout.{geometry_in, TablesOn};
ghost use Rattle.make_volume.specs.Rewritable.{make_rewritable_verdict, made_rewritable, making_writes, JudgesMaking};
ghost use Rattle.model.specs.Lent.{lent};

use address::{LogicalAddress, NONE, PhysicalAddress, Span};
use maps::Kind;
use model::{Cut, Effect, SECTOR};
use refusal::Refusal;
use sparing_copy::Layout;
use vat_file_written::Vat;

// No power failure: making is not cut.
const UNCUT: Cut = Cut {
    at: 0,
    effect: Effect::Old,
};

// ---- a write-once volume

// Why making a write-once volume is turned down, and else the partition's span.
fn judge_blank(disc: &[u8], marks: &[u8], maps: &[u8], s: u32, l: u32) -> Result<Span, Refusal>
    ensures { JudgedBlank (setting maps.now s l) (disc_of disc.now marks.now) result }
{
    let volume = examine::examine(disc, marks, maps, s, l, true)?;
    if let Kind::Rewritable { .. } = volume.kind {
        return Err(Refusal::OtherKind);
    }
    let span = volume.span;
    if !disc_marks::is_next(marks, span.start, span.length, LogicalAddress(0)) {
        return Err(Refusal::NotBlank);
    }
    Ok(span)
}

// Writes the ICB of an empty VAT as block 0, with no cut. Inside the layers: line 1 has been tested, and
// the sector is one of the disc's.
fn write_empty(disc: &mut [u8], marks: &mut [u8], at: PhysicalAddress)
    requires at_in_bounds { at.0 < length marks.old }
    requires disc_len { length disc.old ≡ 2048 * length marks.old }
    ensures { disc_of disc.new marks.new ≡ writes 1 no_cut (record { place = at.0; bytes = written_icb 0 [] none } ∷ []) (disc_of disc.old marks.old) }
{
    let vat = Vat {
        entries: &[],
        previous: LogicalAddress(NONE),
    };
    let mut icb = [0u8; SECTOR];
    vat_icb_written::write_icb(&mut icb, LogicalAddress(0), &vat);
    disc_writes::write_sector(disc, marks, at, &icb, 1, UNCUT);
}

// Makes a blank partition a volume: an empty VAT.
pub fn make_write_once(
    disc: &mut [u8],
    marks: &mut [u8],
    maps: &[u8],
    s: u32,
    l: u32,
) -> Result<(), Refusal>
    ensures value { result ≡ make_once_verdict (setting maps.now s l) (disc_of disc.old marks.old) }
    ensures marks_after { disc_of disc.new marks.new ≡ made_once (setting maps.now s l) (disc_of disc.old marks.old) }
{
    let span = judge_blank(disc, marks, maps, s, l)?;
    let first = address::sector_of(span.start, LogicalAddress(0));
    write_empty(disc, marks, first);
    Ok(())
}

// ---- a rewritable volume

// Why making is turned down, and else the layout.
fn judge_make(
    disc: &[u8],
    marks: &[u8],
    maps: &[u8],
    s: u32,
    l: u32,
    spares: &[u32],
) -> Result<Layout, Refusal>
    ensures { JudgesMaking (lent disc.now marks.now maps.now s l) spares.now result }
{
    let layout = sparing_current::lay_out(disc, marks, maps, s, l, true)?;
    if !layout.spares_fit(spares) {
        return Err(Refusal::Misaligned);
    }
    Ok(layout)
}

// Writes packets of zeros to the partition, then a table's sector to each copy, with no cut. Inside the
// layers: every line of making has been tested.
fn write_made(disc: &mut [u8], marks: &mut [u8], x: Layout, sector: &[u8])
    requires count_bound { (x.count ≤ 4) × (x.sectors ≡ length marks.old) × TablesOn x }
    requires length_in_bounds { (x.volume.span.start + x.volume.span.length ≤ length marks.old) × (length marks.old ≤ 1048576) }
    requires disc_len { (length disc.old ≡ 2048 * length marks.old) × (length sector.now ≡ 2048) }
    ensures { disc_of disc.new marks.new ≡ writes 1 no_cut (making_writes (geometry_in x) sector.now) (disc_of disc.old marks.old) }
{
    let span = x.volume.span;
    let first = address::sector_of(span.start, LogicalAddress(0));
    disc_writes::write_zeros(disc, marks, first, span.length);
    let places = sparing_writes::table_places(x.volume.tables);
    let copies = &places[..usize::from(x.count)];
    sparing_writes::write_copies(disc, marks, copies, sector, span.length + 1, UNCUT);
}

// Makes the partition a volume: packets of zeros, a list of spares, and tables of sequence 0.
pub fn make_rewritable(
    disc: &mut [u8],
    marks: &mut [u8],
    maps: &[u8],
    s: u32,
    l: u32,
    spares: &[u32],
) -> Result<(), Refusal>
    ensures value { result ≡ make_rewritable_verdict (setting maps.now s l) (disc_of disc.old marks.old) spares.now }
    ensures marks_after { disc_of disc.new marks.new ≡ made_rewritable (setting maps.now s l) (disc_of disc.old marks.old) spares.now }
{
    let layout = judge_make(disc, marks, maps, s, l, spares)?;
    let mut sector = [0u8; SECTOR];
    sparing_written::write_free(&mut sector, spares);
    write_made(disc, marks, layout, &sector);
    Ok(())
}
