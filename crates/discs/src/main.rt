// Worked discs: the calls on a disc of 2,144 sectors, as the lines of the file stdin ask for them. Each line is
// printed with what came of it; the file stdout has what document 01 gives. A line that begins with # is only
// printed.
#![tactic(auto)]

mod bench;
mod command;
mod forecast;
mod line;
mod outcome;

use bench::{Bench, Disc, SECTORS};
use command::Command;
use line::Line;
use model::SECTOR;
use say::Out;
use std::io;
use std::io::{Read, Write};

// How many bytes of its input the program reads.
const MOST_SCRIPT: u64 = 131072;

// A line is printed, and then what comes of it.
fn step(
    out: &mut Out,
    bench: &mut Bench,
    disc: &mut Disc,
    places: &mut [u32],
    text: &[u8],
) -> io::Result<()> {
    out.write_all(text)?;
    if let Some(command) = Command::read(Line { text }, places) {
        bench.run(out, disc, command)?;
    }
    out.write_all(b"\n")
}

// Each line ends with a newline; the last byte of all ends the last one, whatever it is.
fn run(out: &mut Out, script: &[u8]) -> io::Result<()> {
    let mut disc = [[0; SECTOR]; SECTORS];
    let mut bench = Bench::new();
    let mut places = [0; forecast::MOST];
    if let Some((_, lines)) = script.split_last() {
        for line in lines.split(|byte| *byte == b'\n') {
            step(out, &mut bench, &mut disc, &mut places, line)?;
        }
    }
    Ok(())
}

fn main(rt: HostRuntime) -> io::Result<()> {
    let mut script = Vec::new(rt.alloc());
    rt.stdin().take(MOST_SCRIPT).read_to_end(&mut script)?;
    let mut out = say::out(&rt)?;
    run(&mut out, &script)?;
    out.flush()
}
