// The map list of a volume: which of the two kinds it is, with the values each kind has (document 01,
// "The disc and its addresses"; 004, 5.3.2 and 5.4.3).
// The layers above count on read_maps, and maps_written on tables_in_range and tables_apart too: what a list
// is tested for is the same where it is written.
#![tactic(auto)]

ghost use Rattle.std.specs.Prelude.{◌≡◌, true, List, ℕ, ◌≤◌, ◌<◌, length, take, drop};
ghost use Rattle.fields.specs.Regid.{regid as regidOf};
ghost use Rattle.maps.specs.Walk.{walk};
ghost use Rattle.maps.specs.Kinds.{words, tables_in_range, is_write_once, is_rewritable, used, volume_with, no_volume, absent, tables_apart, read_maps, volume_read};
ghost use Rattle.maps.specs.Told.{is_short, on_maps, one_type_two};

use address::Span;
use fields::Number;
use refusal::Refusal;

// Every map begins with its type and its length.
pub const TYPE_AT: usize = 0;

pub const LENGTH_AT: usize = 1;

const HEAD_BYTES: usize = 2;

// A type 1 map.
pub const TYPE_ONE: u8 = 1;

pub const TYPE_ONE_BYTES: usize = 6;

pub const TYPE_ONE_LENGTH: u8 = TYPE_ONE_BYTES as u8;

pub const ONE_PARTITION_AT: usize = 4;

// A type 2 map.
pub const TYPE_TWO: u8 = 2;

pub const TYPE_TWO_BYTES: usize = 64;

pub const TYPE_TWO_LENGTH: u8 = TYPE_TWO_BYTES as u8;

pub const REGID_AT: usize = 4;

pub const PARTITION_AT: usize = 38;

// A sparable partition's map, behind the partition number.
pub const PACKET_LENGTH_AT: usize = 40;

pub const TABLES_AT: usize = 42;

pub const SIZE_AT: usize = 44;

pub const SECTORS_AT: usize = 48;

// The bytes of a table's sector in it.
pub const SECTOR_WIDTH: usize = 4;

// The regids of the two type 2 maps.
pub const VIRTUAL: [u8; 32] = *b"\0*UDF Virtual Partition\0\0\0\0\0\0\0\0\0";

pub const SPARABLE: [u8; 32] = *b"\0*UDF Sparable Partition\0\0\0\0\0\0\0\0";

// The sectors of a packet.
pub const PACKET: u32 = 32;

pub const PACKET_LENGTH: u16 = PACKET as u16;

// The number of sparing tables, and the bytes of each.
const LEAST_TABLES: u8 = 1;

const MOST_TABLES: u8 = 4;

const LEAST_SIZE: u32 = 56;

const MOST_SIZE: u32 = 2048;

// The places of table sectors.
const PLACES: usize = 4;

// The two kinds of volume, and what the map list says of each.
#[derive(Clone, Copy, PartialEq, Eq)]
pub enum Kind {
    WriteOnce {
        partition: u16,
    },
    Rewritable {
        partition: u16,
        // the number of sparing tables, and the bytes of each
        tables: u8,
        size: u32,
    },
}

// A volume: its span on the disc, which no map list gives and the caller fills in, its kind, and on a
// rewritable one the sectors of its sparing tables (0 in the places that are not used).
#[derive(Clone, Copy, PartialEq, Eq)]
pub struct Volume {
    pub span: Span,
    pub kind: Kind,
    pub tables: [u32; 4],
}

// A volume, its span not known yet.
fn volume_with(kind: Kind, tables: [u32; 4]) -> Volume
    ensures { result ≡ volume_with kind tables }
{
    Volume {
        span: Span {
            start: 0,
            length: 0,
        },
        kind,
        tables,
    }
}

// What stands for the volume of a list that is turned down.
#[tactic(auto, unfolding(crate::specs::Kinds::no_volume))]
pub fn no_volume() -> Volume
    ensures { result ≡ no_volume }
{
    volume_with(Kind::WriteOnce { partition: 0 }, [0; 4])
}

// The volume that was read, and the empty one where the list is turned down.
#[tactic(auto, unfolding(crate::specs::Kinds::volume_read))]
pub fn volume_read(read: Result<Volume, Refusal>) -> Volume
    ensures { result ≡ volume_read read }
{
    match read {
        Ok(volume) => volume,
        Err(_) => no_volume(),
    }
}

// Whether a map of the list is cut short, or of length 0.
fn is_short(maps: &[u8]) -> bool
    ensures { result ≡ is_short (walk maps.now) }
{
    let mut at: usize = 0;
    // The new form is no plainer: a step is as long as the map says, and no range or chunks take that.
    while at < maps.len() {
        let left = maps.len() - at;
        if left < HEAD_BYTES {
            return true;
        }
        let bytes = usize::from(maps[at + LENGTH_AT]);
        if bytes < 1 {
            return true;
        }
        if left < bytes {
            return true;
        }
        at += bytes;
    }
    false
}

// Whether a list is one type 2 map with this regid, and nothing else.
fn is_type_two(map: &[u8], regid: &[u8]) -> bool
    requires { length regid.now ≡ 32 }
    ensures { (name : List ℕ) → regid.now ≡ regidOf name → result ≡ one_type_two name map.now }
{
    if map.len() != TYPE_TWO_BYTES {
        return false;
    }
    if map[TYPE_AT] != TYPE_TWO {
        return false;
    }
    if map[LENGTH_AT] != TYPE_TWO_LENGTH {
        return false;
    }
    fields::has_regid(map, REGID_AT, regid)
}

// Whether the list is exactly a type 1 map, then that of a virtual partition, of the same partition.
fn is_write_once(maps: &[u8]) -> bool
    ensures { result ≡ on_maps is_write_once (walk maps.now) }
{
    if maps.len() < TYPE_ONE_BYTES {
        return false;
    }
    if maps[TYPE_AT] != TYPE_ONE {
        return false;
    }
    if maps[LENGTH_AT] != TYPE_ONE_LENGTH {
        return false;
    }
    let second = &maps[TYPE_ONE_BYTES..];
    if !is_type_two(second, &VIRTUAL) {
        return false;
    }
    u16::read(maps, ONE_PARTITION_AT) == u16::read(second, PARTITION_AT)
}

// Whether a rewritable map's number of tables and the bytes of each are in their ranges.
pub fn tables_in_range(tables: u8, size: u32) -> bool
    ensures { result ≡ tables_in_range tables size }
{
    if tables < LEAST_TABLES {
        return false;
    }
    if MOST_TABLES < tables {
        return false;
    }
    if size < LEAST_SIZE {
        return false;
    }
    size <= MOST_SIZE
}

// Whether the list is exactly the map of a sparable partition.
fn is_rewritable(maps: &[u8]) -> bool
    ensures { result ≡ on_maps is_rewritable (walk maps.now) }
{
    if !is_type_two(maps, &SPARABLE) {
        return false;
    }
    if u16::read(maps, PACKET_LENGTH_AT) != PACKET_LENGTH {
        return false;
    }
    tables_in_range(maps[TABLES_AT], u32::read(maps, SIZE_AT))
}

// The first `n` table sectors of a rewritable map, and 0 in the other places.
fn table_sectors(map: &[u8], n: usize) -> [u32; 4]
    requires { (n ≤ 4) × (64 ≤ length map.now) }
    ensures { result ≡ used n (words map.now 48 4) }
{
    let mut sectors = [0u32; 4];
    for i in 0..n {
        sectors[i] = u32::read(map, SECTORS_AT + SECTOR_WIDTH * i);
    }
    sectors
}

// Whether none of the first `n` table sectors, from the place `from` on, is `sector`: a loop, since `contains` of a slice of so
// few takes a fifth of the call longer.
fn is_absent(sectors: [u32; 4], n: usize, from: usize, sector: u32) -> bool
    requires { n ≤ 4 }
    ensures { result ≡ absent sector (drop from (take n sectors)) }
{
    for i in from..n {
        if sector == sectors[i] {
            return false;
        }
    }
    true
}

// Whether each of the first `n` of four table sectors starts a packet, and none is named twice.
fn are_apart(sectors: [u32; 4], n: usize) -> bool
    requires { n ≤ 4 }
    ensures { result ≡ tables_apart (take n sectors) }
{
    for i in 0..n {
        let sector = sectors[i];
        if sector % PACKET != 0 {
            return false;
        }
        if !is_absent(sectors, n, i + 1, sector) {
            return false;
        }
    }
    true
}

// The same of any number: behind the fourth there is none.
pub fn tables_apart(sectors: [u32; 4], n: usize) -> bool
    ensures { result ≡ tables_apart (take n sectors) }
{
    are_apart(sectors, n.min(PLACES))
}

// Reads a list that is write-once.
fn read_write_once(maps: &[u8]) -> Result<Volume, Refusal>
    requires { on_maps is_write_once (walk maps.now) ≡ true }
    ensures { result ≡ read_maps maps.now }
{
    let second = &maps[TYPE_ONE_BYTES..];
    let partition = u16::read(second, PARTITION_AT);
    Ok(volume_with(Kind::WriteOnce { partition }, [0; 4]))
}

// Reads a list that is rewritable.
fn read_rewritable(maps: &[u8]) -> Result<Volume, Refusal>
    requires { on_maps is_rewritable (walk maps.now) ≡ true }
    ensures { result ≡ read_maps maps.now }
{
    let tables = maps[TABLES_AT];
    let n = usize::from(tables);
    let sectors = table_sectors(maps, n);
    if !tables_apart(sectors, n) {
        return Err(Refusal::Misaligned);
    }
    let partition = u16::read(maps, PARTITION_AT);
    let size = u32::read(maps, SIZE_AT);
    Ok(volume_with(
        Kind::Rewritable {
            partition,
            tables,
            size,
        },
        sectors,
    ))
}

// Reads a map list.
pub fn read_maps(maps: &[u8]) -> Result<Volume, Refusal>
    ensures { result ≡ read_maps maps.now }
{
    if is_short(maps) {
        return Err(Refusal::MapCut);
    }
    if is_write_once(maps) {
        return read_write_once(maps);
    }
    if is_rewritable(maps) {
        return read_rewritable(maps);
    }
    Err(Refusal::NeitherKind)
}
