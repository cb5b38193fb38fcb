// Translation of addresses: examples a to d of 01, "Proved examples", and the ends of each range.
use address::{LogicalAddress, MediaBlockAddress, Span, VirtualAddress};
use say::{Answer, Out};
use std::io;
use std::io::Write;

// An entry of the VAT.
fn entry(out: &mut Out, name: &str, entries: &[u32], v: u32) -> io::Result<()> {
    let answer = address::virtual_to_logical(entries, VirtualAddress(v));
    writeln!(out, "entry {name}: {}", Answer(answer.map(|b| b.0)))
}

// A block of the partition that starts at `start` and has `length` sectors.
fn block(out: &mut Out, name: &str, start: u32, length: u32, b: u32) -> io::Result<()> {
    let answer = address::logical_to_physical(Span { start, length }, LogicalAddress(b));
    writeln!(
        out,
        "block {name}: {}",
        Answer(answer.map(|sector| sector.0))
    )
}

// A block of the VAT's, on the same partition.
fn virtual_block(
    out: &mut Out,
    name: &str,
    start: u32,
    length: u32,
    entries: &[u32],
    v: u32,
) -> io::Result<()> {
    let span = Span { start, length };
    let answer = address::virtual_to_physical(span, entries, VirtualAddress(v));
    writeln!(
        out,
        "virtual {name}: {}",
        Answer(answer.map(|sector| sector.0))
    )
}

fn media(out: &mut Out, m: u32) -> io::Result<()> {
    let sector = address::media_to_physical(MediaBlockAddress(m));
    writeln!(out, "media {m}: {}", sector.0)
}

fn examples(out: &mut Out) -> io::Result<()> {
    virtual_block(out, "a", 257, 64, &[0, 1], 1)?;
    virtual_block(out, "b", 257, 64, &[0, 16, 15], 2)?;
    virtual_block(out, "c", 257, 64, &[0, 16, 15], 3)?;
    virtual_block(out, "d", 257, 64, &[0, 16, 0xffffffff], 2)
}

fn entries(out: &mut Out) -> io::Result<()> {
    entry(out, "1 of 0, 16, 15", &[0, 16, 15], 1)?;
    entry(out, "3 of 0, 16, 15", &[0, 16, 15], 3)?;
    entry(out, "0xffffffff of 0, 16, 15", &[0, 16, 15], 0xffffffff)?;
    entry(out, "0 of none", &[], 0)?;
    entry(out, "2 of 0, 16, none", &[0, 16, 0xffffffff], 2)?;
    entry(out, "0 of 0xfffffffe", &[0xfffffffe], 0)
}

fn blocks(out: &mut Out) -> io::Result<()> {
    block(out, "0 of 64 from 257", 257, 64, 0)?;
    block(out, "63 of 64 from 257", 257, 64, 63)?;
    block(out, "64 of 64 from 257", 257, 64, 64)?;
    block(out, "0 of 0 from 257", 257, 0, 0)?;
    block(out, "999 of 1,000 from 1,047,576", 1047576, 1000, 999)?;
    block(out, "1,000 of 1,000 from 1,047,576", 1047576, 1000, 1000)?;
    block(out, "0 of 1,001 from 1,047,576", 1047576, 1001, 0)?;
    block(out, "1,048,575 of 1,048,576 from 0", 0, 1048576, 1048575)?;
    block(out, "0 of 1,048,577 from 0", 0, 1048577, 0)?;
    block(out, "0 where S + L wraps", 0xffffffff, 0xffffffff, 0)
}

// Line 2 is tested before lines 12 and 13, and those of the VAT before that of the partition.
fn virtual_blocks(out: &mut Out) -> io::Result<()> {
    virtual_block(out, "entry 63 of 64", 257, 64, &[63], 0)?;
    virtual_block(out, "entry 64 of 64", 257, 64, &[64], 0)?;
    virtual_block(out, "unused", 257, 64, &[0xffffffff], 0)?;
    virtual_block(out, "1 of one entry", 257, 64, &[64], 1)?;
    virtual_block(out, "1 of one entry, no sectors", 257, 0, &[64], 1)?;
    virtual_block(out, "unused, off every disc", 1048513, 64, &[0xffffffff], 0)
}

pub fn run(out: &mut Out) -> io::Result<()> {
    examples(out)?;
    entries(out)?;
    blocks(out)?;
    virtual_blocks(out)?;
    media(out, 257)
}
