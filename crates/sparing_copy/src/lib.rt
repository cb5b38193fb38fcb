// The sparing table of a disc (document 01, "The sparing table"; 004, table 6; 02, slips 1 and 8): whether the bytes of a
// sector are one, and whether a list of spares can become one.
// The layers above count on the equations: each function gives what the definition of its name gives.
// All functions here are inside the layers: where one has a `requires`, the callers have tested it.
#![tactic(auto)]

ghost use Rattle.std.specs.Prelude.{◌≡◌, ℕ, ◌+◌, ◌*◌, ◌/◌, ◌%◌, ◌<◌, ◌≤◌, true, false, length, drop, slice_index};
ghost use Rattle.maps.specs.Kinds.{absent};
ghost use Rattle.model.specs.Sparing.{apart, apart_from, original_fits, originals_fit, may_follow, ascending, mapped_of, mapped_fit, original_clear, originals_clear, entries_fit, count_in, none_defective, named, copy_fits};
ghost use Rattle.model.specs.Both.{spare_entries};
ghost use Rattle.sparing_copy.specs.Layout.{geometry_in, TablesOn, listed};
ghost use Rattle.sparing_copy.specs.Entries.{entry_in, placed, packets_fit};
ghost use Rattle.sparing_copy.specs.Slots.{tag_of, may_hold, held_with, Told, inside, none_inside};

mod shapes;

use address::{LogicalAddress, MediaBlockAddress, PhysicalAddress, Span};
use fields::Number;
use maps::PACKET;
use model::SECTOR;
use shapes::Entries;
pub use shapes::Layout;

// Where a table's fields start: two bytes of 0, the regid, the number of entries, the sequence, the entries.
const TAG_AT: usize = 0;

pub const REGID_AT: usize = 16;

pub const COUNT_AT: usize = 48;

pub const SEQUENCE_AT: usize = 52;

pub const ENTRIES_AT: usize = 56;

// The bytes of a number and of an entry, and where the mapped start is in it.
pub const NUMBER: usize = 4;

pub const ENTRY: usize = 2 * NUMBER;

const MAPPED_IN: usize = NUMBER;

// The entries that fit a sector.
const MOST_ENTRIES: usize = (SECTOR - ENTRIES_AT) / ENTRY;

// The regid of a table as it is written, the newer one (UDF 1.50), and the older one (004), which is read too.
pub const REGID: [u8; 32] = *b"\0*UDF Sparing Table\0\0\0\0\0\0\0\0\0\0\0\0\0";

const OLDER_REGID: [u8; 32] = *b"\0*OSTA UDF Sparing Table\0\0\0\0\0\0\0\0";

// How many slots tell packets apart. A slot holds EMPTY, the tag of the one packet that it was given, or CROWDED after
// several: packets are compared where that leaves it open.
const SLOTS: usize = 256;

// A rule of the project needs bytes: as an enum a slot would take two, and the slots stand on the stack.
const EMPTY: u8 = 0;

const CROWDED: u8 = 1;

// The sectors of as many packets as there are slots, and how many tags there are, from that number on: on the largest disc
// no two packets have both a slot and a tag in common.
const ROUND: u32 = PACKET * SLOTS as u32;

const TAGS: u32 = 128;

// The original of a free spare, and that of a defective one.
pub const FREE: u32 = 0xffffffff;

pub const DEFECTIVE: u32 = 0xfffffff0;

// Whether two packets have no sector in common.
fn is_apart(a: PhysicalAddress, b: PhysicalAddress) -> bool
    ensures { result ≡ apart a.0 b.0 }
{
    PACKET <= a.0.abs_diff(b.0)
}

// Whether an original is that of a free or a defective spare, or a multiple of 32 below L. Neither of those two is a
// multiple of 32.
fn original_fits(original: u32, span: u32) -> bool
    ensures { result ≡ original_fits span original }
{
    // tried as one condition, and it misses the old form's speed
    if original % PACKET == 0 {
        return original < span;
    }
    if original == FREE {
        return true;
    }
    original == DEFECTIVE
}

// Whether an entry of original `next` may stand after one of this original. One that is higher may, of whatever kind.
fn is_after(original: u32, next: u32) -> bool
    ensures { result ≡ may_follow original next }
{
    // tried as one condition, and it misses the old form's speed
    if original < next {
        return true;
    }
    if next == FREE {
        return true;
    }
    if next == DEFECTIVE {
        return original != FREE;
    }
    false
}

// The slot of a packet.
fn slot_of(m: PhysicalAddress) -> usize
    ensures { (result ≡ m.0 / 32 % 256) × (result < 256) }
{
    (m.0 / PACKET) as usize % SLOTS
}

// Its tag.
fn tag_of(m: PhysicalAddress) -> u8
    ensures { result ≡ tag_of m.0 }
{
    (m.0 / ROUND % TAGS + TAGS) as u8
}

// Whether a slot that holds this may have been given this packet.
fn may_hold(held: u8, m: PhysicalAddress) -> bool
    ensures { result ≡ may_hold held m.0 }
{
    held == CROWDED || held == tag_of(m)
}

// What a slot that holds this holds once it is given this packet.
fn held_with(held: u8, m: PhysicalAddress) -> u8
    ensures { result ≡ held_with held m.0 }
{
    if held == EMPTY { tag_of(m) } else { CROWDED }
}

// Whether a packet begins in the partition. The difference wraps: a sector below the partition is far above it.
fn is_inside(span: Span, m: PhysicalAddress) -> bool
    ensures { result ≡ inside span.start span.length m.0 }
{
    m.0.wrapping_sub(span.start) < span.length
}

// Whether none of some spares is `m`. It looks at each, with no early way out.
fn is_absent_spare(spares: &[u32], m: PhysicalAddress) -> bool
    ensures { result ≡ absent m.0 (mapped_of (spare_entries spares.now)) }
{
    let mut none = true;
    for spare in spares {
        if m.0 == *spare {
            none = false;
        }
    }
    none
}

impl<'a> Entries<'a> {
    // The original of entry `i`.
    fn original(&self, i: usize) -> u32
        requires { i < self.now.count }
        ensures { result ≡ (entry_in self.now.sector.now i).original }
    {
        u32::read(self.sector, ENTRIES_AT + ENTRY * i)
    }

    // Its mapped start.
    fn mapped(&self, i: usize) -> PhysicalAddress
        requires { i < self.now.count }
        ensures { result.0 ≡ (entry_in self.now.sector.now i).mapped }
    {
        address::mapped_to_physical(u32::read(self.sector, ENTRIES_AT + ENTRY * i + MAPPED_IN))
    }

    // Whether each entry has an original that fits.
    fn originals_fit(&self, span: u32) -> bool
        ensures { result ≡ originals_fit span (listed self.now) }
    {
        for i in 0..usize::from(self.count) {
            if !original_fits(self.original(i), span) {
                return false;
            }
        }
        true
    }

    // Whether the originals ascend, with the defective ones after the used ones and the free ones last.
    fn is_ascending(&self) -> bool
        ensures { result ≡ ascending (listed self.now) }
    {
        for i in 1..usize::from(self.count) {
            if !is_after(self.original(i - 1), self.original(i)) {
                return false;
            }
        }
        true
    }

    // Whether none of the entries from `from` on is mapped to `m`. It looks at each, with no early way out.
    fn is_absent(&self, from: usize, m: PhysicalAddress) -> bool
        ensures { result ≡ absent m.0 (mapped_of (drop from (listed self.now))) }
    {
        let mut none = true;
        for i in from..usize::from(self.count) {
            if m.0 == self.mapped(i).0 {
                none = false;
            }
        }
        none
    }

    // Whether no entry is mapped into the partition. It looks at each, with no early way out.
    fn none_inside(&self, span: Span) -> bool
        ensures { result ≡ none_inside span.start span.length (listed self.now) }
    {
        let mut none = true;
        for i in 0..usize::from(self.count) {
            if is_inside(span, self.mapped(i)) {
                none = false;
            }
        }
        none
    }

    // Whether no entry is a defective spare. It looks at each, with no early way out.
    fn none_defective(&self) -> bool
        ensures { result ≡ none_defective (listed self.now) }
    {
        let mut none = true;
        for i in 0..usize::from(self.count) {
            if self.original(i) == DEFECTIVE {
                none = false;
            }
        }
        none
    }

    // Whether none of the entries from `from` on is mapped to `m`. They are looked at only where its slot, which holds
    // `held`, may have been given it; most slots are empty.
    fn is_new(&self, from: usize, m: PhysicalAddress, held: u8) -> bool
        requires { may_hold held m.0 ≡ false → absent m.0 (mapped_of (drop from (listed self.now))) ≡ true }
        ensures { result ≡ absent m.0 (mapped_of (drop from (listed self.now))) }
    {
        held == EMPTY || (!may_hold(held, m) || self.is_absent(from, m))
    }

    // Whether entry `i` is not used, or its packet is none that an entry is mapped to. Past 32 bits there is none.
    fn is_clear(&self, s: u32, i: usize, seen: &[u8; SLOTS]) -> bool
        requires i_in_bounds { i < self.now.count }
        requires told { Told seen.now (listed self.now) }
        ensures { result ≡ original_clear s (mapped_of (listed self.now)) (entry_in self.now.sector.now i) }
    {
        let original = self.original(i);
        if original == FREE || original == DEFECTIVE {
            return true;
        }
        if u32::MAX - s < original {
            return true;
        }
        let place = address::sector_of(s, LogicalAddress(original));
        self.is_new(0, place, seen[slot_of(place)])
    }

    // Whether no packet of a used entry is one that an entry is mapped to.
    fn originals_clear(&self, s: u32, seen: &[u8; SLOTS]) -> bool
        requires told { Told seen.now (listed self.now) }
        ensures { result ≡ originals_clear s (mapped_of (listed self.now)) (listed self.now) }
    {
        for i in 0..usize::from(self.count) {
            if !self.is_clear(s, i, seen) {
                return false;
            }
        }
        true
    }

    // Whether a table of these entries has the newer regid, or the older one and no defective spare.
    fn is_named(&self) -> bool
        requires { self.now.count ≡ count_in self.now.sector.now }
        ensures { result ≡ named self.now.sector.now }
    {
        fields::has_regid(self.sector, REGID_AT, &REGID)
            || fields::has_regid(self.sector, REGID_AT, &OLDER_REGID) && self.none_defective()
    }
}

impl Layout {
    // The sectors of the tables: four at most, and on the disc where the layout's are.
    pub fn tables(&self) -> &[u32]
        requires { self.now.count ≤ 4 }
        ensures value { result.now ≡ (geometry_in self.now).tables }
        ensures few { length result.now ≤ 4 }
        ensures on { TablesOn self.now → (i : ℕ) → i < length result.now → slice_index result.now i < self.now.sectors }
    {
        &self.volume.tables[..usize::from(self.count)]
    }

    // Whether a packet is apart from every table's.
    fn is_apart_from_tables(&self, m: PhysicalAddress) -> bool
        requires { self.now.count ≤ 4 }
        ensures { result ≡ apart_from m.0 (geometry_in self.now).tables }
    {
        let tables = self.tables();
        for t in tables {
            let table = address::media_to_physical(MediaBlockAddress(*t));
            if !is_apart(m, table) {
                return false;
            }
        }
        true
    }

    // Whether a packet may be a spare: whole on the disc, and outside every table's packet.
    fn is_placed(&self, m: PhysicalAddress) -> bool
        requires { self.now.count ≤ 4 }
        ensures { result ≡ placed (geometry_in self.now) m.0 }
    {
        model::is_whole(self.sectors as usize, m) && self.is_apart_from_tables(m)
    }

    // Whether the mapped starts of entries may be spares, and none stands twice. It looks from the last entry to the
    // first, and gives each mapped start to its slot once it is found new.
    fn mapped_fit(&self, entries: &Entries, seen: &mut [u8; SLOTS]) -> bool
        requires { self.now.count ≤ 4 }
        ensures value { result ≡ mapped_fit (geometry_in self.now) (listed entries.now) }
        ensures told { result ≡ true → Told seen.new (listed entries.now) }
    {
        for i in (0..usize::from(entries.count)).rev() {
            let m = entries.mapped(i);
            if !self.is_placed(m) {
                return false;
            }
            let slot = slot_of(m);
            let held = seen[slot];
            if !entries.is_new(i + 1, m, held) {
                return false;
            }
            seen[slot] = held_with(held, m);
        }
        true
    }

    // Whether the mapped starts of entries may be spares, none stands twice, and no packet of a used entry is one of
    // them. The originals fit: where no packet of the partition is mapped theirs are not looked at.
    fn packets_fit(&self, entries: &Entries) -> bool
        requires count_bound { self.now.count ≤ 4 }
        requires originals { originals_fit self.now.volume.span.length (listed entries.now) ≡ true }
        ensures { result ≡ packets_fit (geometry_in self.now) (listed entries.now) }
    {
        let span = self.volume.span;
        let mut seen = [EMPTY; SLOTS];
        self.mapped_fit(entries, &mut seen)
            && (entries.none_inside(span) || entries.originals_clear(span.start, &seen))
    }

    // Whether a sector's bytes are a table that counts where the sector is recorded. The number of entries is
    // compared with the map's size first, so that no entry past the sector is read.
    pub fn copy_fits(&self, sector: &[u8]) -> bool
        requires count_bound { (self.now.count ≤ 4) × (self.now.size ≤ 2048) }
        requires sector_len { length sector.now ≡ 2048 }
        ensures { result ≡ copy_fits (geometry_in self.now) sector.now }
    {
        if u16::read(sector, TAG_AT) != 0 {
            return false;
        }
        let count = u16::read(sector, COUNT_AT);
        if (self.size as usize) < ENTRIES_AT + ENTRY * usize::from(count) {
            return false;
        }
        let entries = Entries { sector, count };
        entries.is_named()
            && (entries.originals_fit(self.volume.span.length)
                && (entries.is_ascending() && self.packets_fit(&entries)))
    }

    // Whether each of a list of packets may be a spare, and none stands twice.
    fn spares_placed(&self, spares: &[u32]) -> bool
        requires { self.now.count ≤ 4 }
        ensures { result ≡ mapped_fit (geometry_in self.now) (spare_entries spares.now) }
    {
        for (i, spare) in spares.iter().enumerate() {
            let m = address::mapped_to_physical(*spare);
            if !self.is_placed(m) {
                return false;
            }
            if !is_absent_spare(&spares[i + 1..], m) {
                return false;
            }
        }
        true
    }

    // Whether a list of packets can be the free spares of a table that is made. There may be any number of
    // them: it is looked at first.
    pub fn spares_fit(&self, spares: &[u32]) -> bool
        requires { (self.now.count ≤ 4) × (self.now.size ≤ 2048) }
        ensures { result ≡ entries_fit (geometry_in self.now) (spare_entries spares.now) }
    {
        spares.len() <= MOST_ENTRIES
            && (ENTRIES_AT + ENTRY * spares.len() <= self.size as usize
                && self.spares_placed(spares))
    }
}
