// An entry looked up in a lent VAT file (01, "The plain store", last paragraph), with its number of entries and
// its previous ICB: at the ends of each, and in files that are none.
use address::VirtualAddress;
use say::{Answer, Out};
use std::io;
use std::io::Write;

// Entries 0, 16 and unused, the regid, and 5 as the previous ICB.
const FILE: [u8; 48] = [
    0, 0, 0, 0, 16, 0, 0, 0, 255, 255, 255, 255, 0, 42, 85, 68, 70, 32, 86, 105, 114, 116, 117, 97,
    108, 32, 65, 108, 108, 111, 99, 32, 84, 98, 108, 0, 0, 0, 0, 0, 0, 0, 0, 0, 5, 0, 0, 0,
];

fn entry(out: &mut Out, name: &str, file: &[u8], v: u32) -> io::Result<()> {
    let answer = vat_look_up::look_up(file, VirtualAddress(v));
    writeln!(out, "file {name}: {}", Answer(answer.map(|b| b.0)))
}

fn count(out: &mut Out, name: &str, file: &[u8]) -> io::Result<()> {
    let answer = vat_look_up::count_entries(file);
    writeln!(out, "file {name}: {}", Answer(answer))
}

fn previous(out: &mut Out, name: &str, file: &[u8]) -> io::Result<()> {
    match vat_look_up::read_previous(file) {
        Ok(None) => writeln!(out, "file {name}: none"),
        Ok(Some(b)) => writeln!(out, "file {name}: {}", b.0),
        Err(why) => writeln!(out, "file {name}: refused {}", u32::from(why)),
    }
}

fn entries(out: &mut Out) -> io::Result<()> {
    let file = FILE;
    entry(out, "0, 16, unused: entry 0", &file, 0)?;
    entry(out, "0, 16, unused: entry 1", &file, 1)?;
    entry(out, "0, 16, unused: entry 2", &file, 2)?;
    entry(out, "0, 16, unused: entry 3", &file, 3)?;
    entry(out, "0, 16, unused: entry 0xffffffff", &file, 0xffffffff)?;
    count(out, "0, 16, unused: entries", &file)?;
    previous(out, "0, 16, unused: previous", &file)
}

fn empty(out: &mut Out) -> io::Result<()> {
    let file = FILE;
    let tail = &file[12..];
    entry(out, "empty: entry 0", tail, 0)?;
    count(out, "empty: entries", tail)?;
    previous(out, "empty: previous", tail)
}

fn damaged(out: &mut Out) -> io::Result<()> {
    let mut file = FILE;
    entry(out, "35 bytes: entry 0", &file[13..], 0)?;
    entry(out, "47 bytes: entry 0", &file[..47], 0)?;
    file[44..].fill(255);
    previous(out, "no previous: previous", &file)?;
    file[12] = 1;
    entry(out, "flags 1: entry 0", &file, 0)?;
    count(out, "flags 1: entries", &file)?;
    previous(out, "flags 1: previous", &file)
}

pub fn run(out: &mut Out) -> io::Result<()> {
    entries(out)?;
    empty(out)?;
    damaged(out)
}
