// The map list of a volume, written into lent bytes (document 01, "The disc and its addresses"; 004, 5.3.2 and
// 5.4.3).
// The layers above count on write_maps alone, and on the law that what it writes read_maps reads.
#![tactic(auto)]

ghost use Rattle.std.specs.Prelude.{◌≡◌, List, ℕ, ◌≤◌, ◌<◌, length, take, replicate};
ghost use Rattle.fields.specs.Bytes.{splice};
ghost use Rattle.fields.specs.Number.{quads};
ghost use Rattle.fields.specs.Regid.{regid as regidOf};
ghost use Rattle.maps.specs.declared.Kind;
ghost use Rattle.maps.specs.Written.{type_one_map, type_two_map, maps_of};
ghost use Rattle.maps_written.specs.Writing.{write_verdict, written_or};

use fields::Number;
use maps::{
    Kind, LENGTH_AT, ONE_PARTITION_AT, PACKET_LENGTH, PACKET_LENGTH_AT, PARTITION_AT, REGID_AT,
    SECTORS_AT, SIZE_AT, SPARABLE, TABLES_AT, TYPE_AT, TYPE_ONE, TYPE_ONE_BYTES, TYPE_ONE_LENGTH,
    TYPE_TWO, TYPE_TWO_BYTES, TYPE_TWO_LENGTH, VIRTUAL, Volume,
};
use refusal::Refusal;

// The volume sequence number, its place in a map of either type, and its value as it is written.
const ONE_SEQUENCE_AT: usize = 2;

const SEQUENCE_AT: usize = 36;

const SEQUENCE: u16 = 1;

// The two bytes of a type 2 map that are reserved.
const RESERVED_AT: usize = 2;

// The bytes of a write-once list.
const WRITE_ONCE_BYTES: usize = TYPE_ONE_BYTES + TYPE_TWO_BYTES;

// Writes a type 1 map into the first bytes lent.
fn put_type_one(map: &mut [u8], partition: u16)
    requires { 6 ≤ length map.old }
    ensures { map.new ≡ splice map.old 0 (type_one_map partition) }
{
    map[TYPE_AT] = TYPE_ONE;
    map[LENGTH_AT] = TYPE_ONE_LENGTH;
    SEQUENCE.write(map, ONE_SEQUENCE_AT);
    partition.write(map, ONE_PARTITION_AT);
}

// Writes a type 2 map up to its partition number, and 0 after that.
fn put_type_two(map: &mut [u8], regid: &[u8], partition: u16)
    requires map_len { length map.old ≡ 64 }
    requires regid_len { length regid.now ≡ 32 }
    ensures { (name : List ℕ) → regid.now ≡ regidOf name → map.new ≡ type_two_map name partition (replicate 24 0) }
{
    map[TYPE_AT] = TYPE_TWO;
    map[LENGTH_AT] = TYPE_TWO_LENGTH;
    fields_written::clear(&mut map[RESERVED_AT..]);
    fields_written::write_regid(map, REGID_AT, regid);
    SEQUENCE.write(map, SEQUENCE_AT);
    partition.write(map, PARTITION_AT);
}

// Writes the list of a write-once volume.
fn put_write_once(out: &mut [u8], partition: u16)
    requires { length out.old ≡ 70 }
    ensures { out.new ≡ maps_of (Kind.WriteOnce partition) (replicate 4 0) }
{
    put_type_one(out, partition);
    put_type_two(&mut out[TYPE_ONE_BYTES..], &VIRTUAL, partition);
}

// Writes the list of a rewritable volume.
fn put_rewritable(out: &mut [u8], partition: u16, tables: u8, size: u32, sectors: [u32; 4])
    requires { (tables ≤ 4) × (length out.old ≡ 64) }
    ensures { out.new ≡ maps_of (Kind.Rewritable partition tables size) sectors }
{
    put_type_two(out, &SPARABLE, partition);
    PACKET_LENGTH.write(out, PACKET_LENGTH_AT);
    out[TABLES_AT] = tables;
    size.write(out, SIZE_AT);
    fields_written::write_numbers(out, SECTORS_AT, &sectors[..usize::from(tables)]);
}

// Writes a volume's map list into all bytes lent, or leaves them as they came. The volume's span is not
// looked at.
pub fn write_maps(volume: Volume, out: &mut [u8]) -> Result<(), Refusal>
    ensures value { result ≡ write_verdict volume out.old }
    ensures out_after { out.new ≡ written_or (write_verdict volume out.old) volume out.old }
{
    match volume.kind {
        Kind::WriteOnce { partition } => {
            if out.len() != WRITE_ONCE_BYTES {
                return Err(Refusal::LentLength);
            }
            put_write_once(out, partition);
        }
        Kind::Rewritable {
            partition,
            tables,
            size,
        } => {
            if out.len() != TYPE_TWO_BYTES {
                return Err(Refusal::LentLength);
            }
            if !maps::tables_in_range(tables, size) {
                return Err(Refusal::NeitherKind);
            }
            if !maps::tables_apart(volume.tables, usize::from(tables)) {
                return Err(Refusal::Misaligned);
            }
            put_rewritable(out, partition, tables, size, volume.tables);
        }
    }
    Ok(())
}
