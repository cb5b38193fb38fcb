// Map lists with single bytes set anew: each way a list is turned down, and what is not looked at.
ghost use Rattle.std.specs.Prelude.{◌≡◌, ◌+◌, ◌<◌, ◌≤◌, length};

use crate::lists;
use fields::Number;
use say::Out;
use std::io;

// A good list, and the group that its cases are printed under.
#[derive(Clone, Copy)]
struct Good<const N: usize> {
    group: &'static str,
    list: [u8; N],
}

impl<const N: usize> Good<N> {
    // It is read with a byte set anew.
    fn with_byte(&self, out: &mut Out, name: &str, at: usize, byte: u8) -> io::Result<()>
        requires { at < N }
    {
        let mut list = self.list;
        list[at] = byte;
        lists::read(out, self.group, name, &list)
    }

    // It is read with a number of 2 bytes set anew.
    fn with_number(&self, out: &mut Out, name: &str, at: usize, n: u16) -> io::Result<()>
        requires { at + 2 ≤ N }
    {
        let mut list = self.list;
        n.write(&mut list, at);
        lists::read(out, self.group, name, &list)
    }
}

// The one of a write-once volume.
fn write_once() -> Good<70>
    ensures { length result.list ≡ 70 }
{
    let mut list = [0; 70];
    let _ = maps_written::write_maps(lists::write_once(7), &mut list);
    Good {
        group: "write-once",
        list,
    }
}

// The one of a rewritable volume.
fn rewritable() -> Good<64>
    ensures { length result.list ≡ 64 }
{
    let mut list = [0; 64];
    let volume = lists::rewritable(7, 4, 2048, [64, 96, 128, 160]);
    let _ = maps_written::write_maps(volume, &mut list);
    Good {
        group: "rewritable",
        list,
    }
}

// Lists of a few bytes.
fn short_lists(out: &mut Out) -> io::Result<()> {
    lists::read(out, "list", "of no bytes", b"")?;
    lists::read(out, "list", "of one byte", b"\x01")?;
    lists::read(out, "list", "of a map of two bytes", b"\x01\x02")?;
    // The walk goes on by one byte, to where a map is cut short, and to a whole map.
    lists::read(out, "list", "with length 1, then one byte", b"\x02\x01")?;
    lists::read(
        out,
        "list",
        "with length 1, then a map of two bytes",
        b"\x01\x01\x02",
    )
}

// Parts of a list of three maps: those of a write-once volume, then the first once more.
fn write_once_parts(out: &mut Out) -> io::Result<()> {
    let list: &[u8] = b"\x01\x06\x01\0\x07\0\
        \x02\x40\0\0\0*UDF Virtual Partition\0\0\0\0\0\0\0\0\0\x01\0\x07\0\0\0\0\0\0\0\0\0\0\0\0\0\0\0\0\0\0\0\0\0\0\0\0\0\
        \x01\x06\x01\0\x07\0";
    lists::read(out, "write-once", "with a third map", list)?;
    lists::read(out, "write-once", "as it is", &list[..70])?;
    lists::read(out, "write-once", "with type 2 before type 1", &list[6..])?;
    lists::read(out, "write-once", "with no second map", &list[..6])?;
    lists::read(out, "write-once", "with no first map", &list[6..70])?;
    lists::read(
        out,
        "write-once",
        "with a byte of the second map",
        &list[..7],
    )?;
    lists::read(out, "write-once", "cut by a byte", &list[..69])
}

// Parts of a list of two maps: that of a rewritable volume, then one of type 1.
fn rewritable_parts(out: &mut Out) -> io::Result<()> {
    let list: &[u8] = b"\x02\x40\0\0\0*UDF Sparable Partition\0\0\0\0\0\0\0\0\x01\0\x07\0\
        \x20\0\x01\0\0\x08\0\0\x40\0\0\0\0\0\0\0\0\0\0\0\0\0\0\0\
        \x01\x06\x01\0\x07\0";
    lists::read(out, "rewritable", "with a second map", list)?;
    lists::read(out, "rewritable", "as it is", &list[..64])?;
    lists::read(out, "rewritable", "cut by a byte", &list[..63])
}

// Of a write-once volume's list: type 1 map at 0, type 2 map at 6.
fn write_once_lengths(out: &mut Out) -> io::Result<()> {
    let good = write_once();
    good.with_byte(out, "with length 0 of the first map", 1, 0)?;
    good.with_byte(out, "with length 0 of the second map", 7, 0)?;
    good.with_byte(out, "with length past the end, of the first map", 1, 71)?;
    good.with_byte(out, "with length past the end, of the second map", 7, 65)?;
    good.with_byte(
        out,
        "with length a byte too short, of the second map",
        7,
        63,
    )
}

fn write_once_refused(out: &mut Out) -> io::Result<()> {
    let good = write_once();
    good.with_byte(out, "with type 2 for type 1", 0, 2)?;
    good.with_byte(out, "with type 1 for type 2", 6, 1)?;
    good.with_byte(out, "with flags 1", 10, 1)?;
    good.with_byte(out, "with another byte 0 of the identifier", 11, b'+')?;
    good.with_byte(out, "with another byte 22 of the identifier", 33, b' ')?;
    good.with_byte(out, "with partition number 8 in the first map", 4, 8)?;
    good.with_byte(out, "with partition number 8 in the second map", 44, 8)?;
    good.with_byte(out, "with partition number 263 in the second map", 45, 1)
}

fn write_once_ignored(out: &mut Out) -> io::Result<()> {
    let good = write_once();
    good.with_byte(out, "with volume sequence number 2 in the first map", 2, 2)?;
    good.with_byte(
        out,
        "with volume sequence number 2 in the second map",
        42,
        2,
    )?;
    good.with_byte(out, "with 255 as byte 2 of the second map", 8, 255)?;
    good.with_byte(out, "with 255 as byte 0 of the suffix", 34, 255)?;
    good.with_byte(out, "with 255 as byte 7 of the suffix", 41, 255)?;
    good.with_byte(out, "with 255 as byte 40 of the second map", 46, 255)?;
    good.with_byte(out, "with 255 as byte 63 of the second map", 69, 255)
}

// Of a rewritable volume's list.
fn rewritable_refused(out: &mut Out) -> io::Result<()> {
    let good = rewritable();
    good.with_byte(out, "with length 0", 1, 0)?;
    good.with_byte(out, "with length past the end", 1, 65)?;
    good.with_byte(out, "with length a byte too short", 1, 63)?;
    good.with_byte(out, "with type 1", 0, 1)?;
    good.with_byte(out, "with flags 1", 4, 1)?;
    good.with_byte(out, "with another byte 0 of the identifier", 5, b'+')?;
    good.with_byte(out, "with another byte 22 of the identifier", 27, b'N')?;
    good.with_byte(out, "with packet length 31", 40, 31)?;
    good.with_byte(out, "with packet length 288", 41, 1)
}

fn rewritable_tables(out: &mut Out) -> io::Result<()> {
    let good = rewritable();
    good.with_byte(out, "with no table", 42, 0)?;
    good.with_byte(out, "with 1 table", 42, 1)?;
    good.with_byte(out, "with 5 tables", 42, 5)?;
    good.with_number(out, "with table size 55", 44, 55)?;
    good.with_number(out, "with table size 56", 44, 56)?;
    good.with_number(out, "with table size 2,049", 44, 2049)?;
    good.with_byte(out, "with table size 67,584", 46, 1)?;
    good.with_byte(out, "with first table sector 33", 48, 33)?;
    good.with_byte(out, "with last table sector 161", 60, 161)?;
    good.with_byte(out, "with first and second table sector 64", 52, 64)?;
    good.with_byte(out, "with first and last table sector 64", 60, 64)
}

fn rewritable_ignored(out: &mut Out) -> io::Result<()> {
    let good = rewritable();
    good.with_byte(out, "with 255 as byte 2", 2, 255)?;
    good.with_byte(out, "with 255 as byte 0 of the suffix", 28, 255)?;
    good.with_byte(out, "with 255 as byte 7 of the suffix", 35, 255)?;
    good.with_byte(out, "with volume sequence number 2", 36, 2)?;
    good.with_byte(out, "with 255 as byte 43", 43, 255)?;
    good.with_byte(out, "with 255 as byte 3 of a table sector", 51, 255)
}

// Sectors in places past the number of tables, not a multiple of 32 and named twice.
fn unused_sectors(out: &mut Out) -> io::Result<()> {
    let mut list = rewritable().list;
    list[42] = 1;
    list[52] = 33;
    list[56] = 64;
    lists::read(
        out,
        "rewritable",
        "with 1 table, unused places not 0",
        &list,
    )
}

pub fn run(out: &mut Out) -> io::Result<()> {
    short_lists(out)?;
    write_once_parts(out)?;
    rewritable_parts(out)?;
    write_once_lengths(out)?;
    write_once_refused(out)?;
    write_once_ignored(out)?;
    rewritable_refused(out)?;
    rewritable_tables(out)?;
    rewritable_ignored(out)?;
    unused_sectors(out)
}
