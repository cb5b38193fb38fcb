// Will this trial fit (02, slip 9): what a list of saves and commits would come to on a write-once disc. It relies on
// room for what each of them takes, as the calls themselves do, and looks at marks and table once, however long
// the list is. It writes nothing, and has no requires.
#![tactic(auto)]

ghost use Rattle.std.specs.Prelude.{◌≡◌, List, ℕ, ◌≤◌, Ok};
ghost use Rattle.refusal.specs.Tests.{first};
ghost use Rattle.model.specs.Disc.{disc as disc_of};
ghost use Rattle.model.specs.Examine.{setting};
ghost use Rattle.model.specs.Once.{entries_held, next_held};
ghost use Rattle.model.specs.Forecast.{is_commit, item_tests, item_record, forecast_from, forecast as forecastOf};

use address::VirtualAddress;
use model::{Forecast, Record};
use refusal::Refusal;

// An item at or above it stands for a commit; any other is the number of a block to be saved.
pub const COMMIT: u32 = 0x80000000;

// Whether an item stands for a commit.
fn is_commit(x: u32) -> bool
    ensures { result ≡ is_commit x }
{
    COMMIT <= x
}

// Line 16 of a commit; lines 12 and 16 of a save. Inside the layers: line 11 has been tested.
fn judge_item(l: u32, held: Record, x: u32) -> Result<(), Refusal>
    requires { entries_held held ≤ 4096 }
    ensures { (maps : List ℕ) (s : ℕ) → result ≡ first (item_tests (setting maps s l) held x) }
{
    if is_commit(x) {
        if !room::has_commit_room(l, held) {
            return Err(Refusal::NoRoom);
        }
        return Ok(());
    }
    let v = VirtualAddress(x);
    if !room::is_number(held, v) {
        return Err(Refusal::NumberOutside);
    }
    if !room::has_room(l, held, v) {
        return Err(Refusal::NoRoom);
    }
    Ok(())
}

// The record after an item. Inside the layers: lines 2 and 11 have been tested.
fn after_item(held: Record, x: u32) -> Record
    requires { (entries_held held ≤ 4096) × (next_held held ≤ 1048576) }
    ensures { result ≡ item_record held x }
{
    if is_commit(x) {
        return room::committed(held);
    }
    room::saved(held, VirtualAddress(x))
}

// Goes through the items up to the first that would be refused. Each before it raises NWA, which stays within L: so the
// index fits. Inside the layers: lines 1 to 7 and 11 have been tested.
fn forecast_items(l: u32, handed: Record, items: &[u32]) -> Forecast
    requires { (entries_held handed ≤ 4096) × (next_held handed ≤ l) × (l ≤ 1048576) }
    ensures { (maps : List ℕ) (s : ℕ) → Ok result ≡ forecast_from (setting maps s l) 0 handed items.now }
{
    let mut held = handed;
    for (i, x) in items.iter().enumerate() {
        if let Err(why) = judge_item(l, held, *x) {
            return Forecast::Stops {
                index: i as u32,
                why,
            };
        }
        held = after_item(held, *x);
    }
    Forecast::Ends {
        next: examine::next_held(held).0,
        entries: examine::entries_held(held),
    }
}

// What the items would come to: NWA and N at the end, or the first of them that would be refused, and why.
pub fn forecast(
    disc: &[u8],
    marks: &[u8],
    maps: &[u8],
    s: u32,
    l: u32,
    table: &[u32],
    held: Record,
    items: &[u32],
) -> Result<Forecast, Refusal>
    ensures { result ≡ forecastOf (setting maps.now s l) (disc_of disc.now marks.now) table.now held items.now }
{
    let lent = examine::is_lent(table);
    let volume = examine::judge_once(disc, marks, maps, s, l, table, lent, held)?;
    Ok(forecast_items(volume.span.length, held, items))
}
