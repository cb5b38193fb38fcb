// Map lists that are not written: the answer's number, and the CRC of the lent bytes, which came as 0xa5.
use crate::lists;
use maps::Volume;
use say::Out;
use std::io;
use std::io::Write;

fn write(out: &mut Out, name: &str, volume: Volume, list: &mut [u8]) -> io::Result<()> {
    let number = say::number(maps_written::write_maps(volume, list));
    writeln!(out, "write {name}: {number} {:04x}", tag::crc(list, 0))
}

fn write_once_lengths(out: &mut Out) -> io::Result<()> {
    let volume = lists::write_once(7);
    write(out, "write-once, no bytes", volume, &mut [])?;
    write(out, "write-once, 64 bytes", volume, &mut [0xa5; 64])?;
    write(out, "write-once, 69 bytes", volume, &mut [0xa5; 69])?;
    write(out, "write-once, 70 bytes", volume, &mut [0xa5; 70])?;
    write(out, "write-once, 71 bytes", volume, &mut [0xa5; 71])
}

fn rewritable_lengths(out: &mut Out) -> io::Result<()> {
    let volume = lists::rewritable(7, 4, 2048, [64, 96, 128, 160]);
    write(out, "rewritable, 63 bytes", volume, &mut [0xa5; 63])?;
    write(out, "rewritable, 64 bytes", volume, &mut [0xa5; 64])?;
    write(out, "rewritable, 65 bytes", volume, &mut [0xa5; 65])?;
    write(out, "rewritable, 70 bytes", volume, &mut [0xa5; 70])
}

// A rewritable volume's list, to bytes of the right length.
fn rewritable(
    out: &mut Out,
    name: &str,
    tables: u8,
    size: u32,
    sectors: [u32; 4],
) -> io::Result<()> {
    let volume = lists::rewritable(7, tables, size, sectors);
    write(out, name, volume, &mut [0xa5; 64])
}

fn tables(out: &mut Out) -> io::Result<()> {
    rewritable(out, "no table", 0, 2048, [64, 96, 128, 160])?;
    rewritable(out, "5 tables", 5, 2048, [64, 96, 128, 160])?;
    rewritable(out, "table size 55", 4, 55, [64, 96, 128, 160])?;
    rewritable(out, "table size 2,049", 4, 2049, [64, 96, 128, 160])?;
    rewritable(out, "table sector 33", 4, 2048, [33, 96, 128, 160])?;
    rewritable(out, "table sector 64 twice", 4, 2048, [64, 96, 128, 64])
}

// Line 3 is tested before line 5, and that before line 6.
fn order(out: &mut Out) -> io::Result<()> {
    let volume = lists::rewritable(7, 5, 2048, [33, 96, 128, 160]);
    write(out, "lines 3, 5 and 6", volume, &mut [0xa5; 63])?;
    write(out, "lines 5 and 6", volume, &mut [0xa5; 64])
}

pub fn run(out: &mut Out) -> io::Result<()> {
    write_once_lengths(out)?;
    rewritable_lengths(out)?;
    tables(out)?;
    order(out)
}
