// The map list of each kind of volume, written and read back (01, "The disc and its addresses").
use address::Span;
use maps::{Kind, Volume};
use say::{Bytes, Out};
use std::io;
use std::io::Write;

pub fn write_once(partition: u16) -> Volume {
    Volume {
        span: Span {
            start: 0,
            length: 0,
        },
        kind: Kind::WriteOnce { partition },
        tables: [0; 4],
    }
}

pub fn rewritable(partition: u16, tables: u8, size: u32, sectors: [u32; 4]) -> Volume {
    Volume {
        span: Span {
            start: 0,
            length: 0,
        },
        kind: Kind::Rewritable {
            partition,
            tables,
            size,
        },
        tables: sectors,
    }
}

// A list, read: the answer's number and, where that is 0, the kind and its partition number; of a rewritable
// volume then number of tables, size and sectors.
pub fn read(out: &mut Out, group: &str, name: &str, list: &[u8]) -> io::Result<()> {
    write!(out, "{group} {name}: ")?;
    match maps::read_maps(list) {
        Ok(volume) => say_volume(out, volume),
        Err(why) => writeln!(out, "{}", u32::from(why)),
    }
}

fn say_volume(out: &mut Out, volume: Volume) -> io::Result<()> {
    match volume.kind {
        Kind::WriteOnce { partition } => writeln!(out, "0 write-once {partition}"),
        Kind::Rewritable {
            partition,
            tables,
            size,
        } => {
            let [a, b, c, d] = volume.tables;
            writeln!(
                out,
                "0 rewritable {partition} {tables} {size} {a} {b} {c} {d}"
            )
        }
    }
}

// A volume's list, written over other bytes, then read.
fn round_trip(out: &mut Out, name: &str, volume: Volume, list: &mut [u8]) -> io::Result<()> {
    let number = say::number(maps_written::write_maps(volume, list));
    writeln!(out, "written {name}: {number} {}", Bytes(list))?;
    read(out, "read", name, list)
}

pub fn run(out: &mut Out) -> io::Result<()> {
    let once = write_once(0x1234);
    round_trip(out, "write-once", once, &mut [0xa5; 70])?;
    let one = rewritable(0x1234, 1, 56, [64, 0, 0, 0]);
    round_trip(out, "rewritable, 1 table", one, &mut [0xa5; 64])?;
    let four = rewritable(0xffff, 4, 2048, [32, 1056, 0x12345680, 0xffffffe0]);
    round_trip(out, "rewritable, 4 tables", four, &mut [0xa5; 64])?;
    // Places past the number of tables are not looked at, and written as 0.
    let unused = rewritable(0, 1, 2048, [0, 33, 0, 33]);
    round_trip(out, "rewritable, unused places", unused, &mut [0xa5; 64])
}
