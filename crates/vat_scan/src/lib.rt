// The newest VAT ICB on a write-once disc (document 01, "Calls and their sector writes": "Opening goes down from
// the last sector that is not blank, inside the partition, to the first VAT ICB").
// The layers above count on scan: it ends where the definition's scan ends.
// All functions here are inside the layers: they are called where lines 1 and 2 have been tested, and say in a
// `requires` what they take from them.
#![tactic(auto)]

ghost use Rattle.std.specs.Prelude.{◌≡◌, false, List, ℕ, ◌+◌, ◌≤◌, ◌<◌, length, MatchOption};
ghost use Rattle.model.specs.Disc.{disc as disc_of};
ghost use Rattle.model.specs.Vat.{Found, nowhere, vat_icb, scan as scanned};
ghost use Rattle.vat_read.specs.File.{Lent};
ghost use Rattle.vat_scan.specs.Scan.{Within, scan_of};

use address::LogicalAddress;
use fields::Number;
use model::{RECORDED, SECTOR};
use vat_icb::{FILE_ENTRY, Icb};
use vat_read::File;

// How many blocks a step of the scan looks at.
const STEP: u32 = 8;

// Whether logical block `k` can be a VAT ICB: it begins as a File Entry. Inside the layers: its sector is one of
// the disc's.
fn can_be_icb(disc: &[u8], s: u32, k: LogicalAddress) -> bool
    requires { Within disc.now s (k.0 + 1) }
    ensures { result ≡ false → (marks : List ℕ) → vat_icb (disc_of disc.now marks) s k.0 ≡ false }
{
    let at = address::sector_of(s, k).0 as usize;
    u16::read(disc, SECTOR * at) == FILE_ENTRY
}

// How many of a step's blocks from `k` on can be one. It looks at each, with no early way out. Inside the layers:
// their sectors are the disc's.
fn count_icbs(disc: &[u8], s: u32, k: LogicalAddress) -> u32
    requires { Within disc.now s (k.0 + 8) }
    ensures { result ≡ 0 → (marks : List ℕ) (i : ℕ) → i < 8 → vat_icb (disc_of disc.now marks) s (k.0 + i) ≡ false }
{
    let mut count: u32 = 0;
    for i in 0..STEP {
        if can_be_icb(disc, s, LogicalAddress(k.0 + i)) {
            count += 1;
        }
    }
    count
}

// The end of the first `n` blocks without those at their end that cannot be an ICB, as far as whole steps pass
// over them. Inside the layers: their sectors are the disc's.
fn skip_steps(disc: &[u8], s: u32, n: LogicalAddress) -> LogicalAddress
    requires { Within disc.now s n.0 }
    ensures { (result.0 ≤ n.0) × ((marks : List ℕ) → scanned (disc_of disc.now marks) s result.0 ≡ scanned (disc_of disc.now marks) s n.0) }
{
    let mut k = n.0;
    // The new form is no plainer: it goes down by whole steps from a place that no range begins at.
    while STEP <= k && count_icbs(disc, s, LogicalAddress(k - STEP)) == 0 {
        k -= STEP;
    }
    LogicalAddress(k)
}

// The last of the first `n` blocks that can be an ICB, if there is one. Whole steps pass first, then single blocks.
// Inside the layers: their sectors are the disc's.
fn last_possible(disc: &[u8], s: u32, n: LogicalAddress) -> Option<LogicalAddress>
    requires { Within disc.now s n.0 }
    ensures { (marks : List ℕ) → MatchOption result (scanned (disc_of disc.now marks) s n.0 ≡ nowhere) (λ k. (k.0 < n.0) × (scanned (disc_of disc.now marks) s (k.0 + 1) ≡ scanned (disc_of disc.now marks) s n.0)) }
{
    let end = skip_steps(disc, s, n).0;
    for k in (0..end).rev() {
        if can_be_icb(disc, s, LogicalAddress(k)) {
            return Some(LogicalAddress(k));
        }
    }
    None
}

// The scan down from below logical block `n` to the first VAT ICB. Inside the layers: lines 1 and 2 have been
// tested, and `n` does not exceed L.
pub fn scan(disc: &[u8], marks: &[u8], s: u32, n: LogicalAddress) -> Option<LogicalAddress>
    requires { Lent disc.now marks.now s n.0 }
    ensures { result ≡ scan_of (scanned (disc_of disc.now marks.now) s n.0) }
{
    let mut end = n;
    // A rule of the project needs the labelled loop: the scan yields the first VAT ICB by break.
    let found = 'scan: loop {
        let Some(k) = last_possible(disc, s, end) else {
            break 'scan None;
        };
        end = k;
        let at = address::sector_of(s, k).0 as usize;
        if marks[at] != RECORDED {
            continue 'scan;
        }
        let from = SECTOR * at;
        let icb = Icb {
            bytes: &disc[from..from + SECTOR],
        };
        if !icb.tag_fits(k) {
            continue 'scan;
        }
        let Some(entry) = icb.entry() else {
            continue 'scan;
        };
        if !entry.allocation_fits(marks, s, k) {
            continue 'scan;
        }
        let file = File { disc, s, entry };
        if !file.table_fits(k) {
            continue 'scan;
        }
        break 'scan Some(k);
    };
    found
}
