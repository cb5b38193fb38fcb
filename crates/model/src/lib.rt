// Document 01 as definitions, in specs/, and the theorem over them, in proofs/. Here are only what the
// calls share: numbers of the format, what a cut is, the record that a call hands on, what a call answers, and
// the tests that packets of tables and of spares are put to.
#![tactic(auto)]

ghost use Rattle.std.specs.Prelude.{◌≡◌, List, ℕ};
ghost use Rattle.model.specs.Sparing.{ground_of, whole_packet, outside};

use address::PhysicalAddress;
use maps::PACKET;
use refusal::Refusal;

// The bytes of a sector, and so of a block.
pub const SECTOR: usize = 2048;

// The bytes of a packet.
pub const PACKET_BYTES: usize = 65536;

// The sectors of a packet, where sums of them are taken.
const WIDE_PACKET: u64 = PACKET as u64;

// The marks of a sector.
pub const BLANK: u8 = 0;

pub const RECORDED: u8 = 1;

pub const UNREADABLE: u8 = 2;

// The most entries of a VAT, and the regid behind them.
pub const MOST_ENTRIES: u32 = 4096;

pub const VAT_REGID: [u8; 32] = *b"\0*UDF Virtual Alloc Tbl\0\0\0\0\0\0\0\0\0";

// What is told of a call that was carried out, and of one that was cut.
pub const DONE: u32 = 0;

pub const CUT: u32 = 255;

// What becomes of the sector write at which the power fails.
#[derive(Clone, Copy, PartialEq, Eq)]
pub enum Effect {
    Old,
    Unreadable,
    Whole,
}

// A power failure at a sector write of a call, counted from 1; 0, or past the last write, is none.
#[derive(Clone, Copy, PartialEq, Eq)]
pub struct Cut {
    pub at: u32,
    pub effect: Effect,
}

// What becomes of one sector write of a call.
#[derive(Clone, Copy, PartialEq, Eq)]
pub enum Landing {
    Done,
    Old,
    Unreadable,
    Untouched,
}

// What goes with the lent table from one call to the next: on a write-once disc the number of entries N,
// the next writable block NWA and the last ICB; on a rewritable one the number of entries R and the
// sequence.
#[derive(Clone, Copy, PartialEq, Eq)]
pub enum Record {
    WriteOnce { entries: u32, next: u32, last: u32 },
    Rewritable { entries: u32, sequence: u32 },
}

// What a writing call that is not turned down comes to.
#[derive(Clone, Copy, PartialEq, Eq)]
pub enum Reply {
    Done(Record),
    Cut,
}

// What an opening hands on, and a list of calls at its end: the record in force, and how many sectors the last opening passed over.
#[derive(Clone, Copy, PartialEq, Eq)]
pub struct Opened {
    pub handed: Record,
    pub passed: u32,
}

// What the forecast of a list of saves and commits comes to (02, slip 9): NWA and N at its end; or the index from 0 of
// the first item that would be refused, and why.
#[derive(Clone, Copy, PartialEq, Eq)]
pub enum Forecast {
    Ends { next: u32, entries: u32 },
    Stops { index: u32, why: Refusal },
}

// Whether the packet at m is a whole packet of the disc.
pub fn is_whole(sectors: usize, m: PhysicalAddress) -> bool
    ensures { (s l : ℕ) (tables : List ℕ) (size : ℕ) → result ≡ whole_packet (ground_of s l sectors tables size) m.0 }
{
    let at = m.0 as u64;
    if at % WIDE_PACKET != 0 {
        return false;
    }
    at + WIDE_PACKET <= sectors as u64
}

// Whether it is one outside the partition.
pub fn is_outside(sectors: usize, s: u32, l: u32, m: PhysicalAddress) -> bool
    ensures { (tables : List ℕ) (size : ℕ) → result ≡ outside (ground_of s l sectors tables size) m.0 }
{
    if !is_whole(sectors, m) {
        return false;
    }
    let at = m.0 as u64;
    if at + WIDE_PACKET <= s as u64 {
        return true;
    }
    s as u64 + l as u64 <= at
}
