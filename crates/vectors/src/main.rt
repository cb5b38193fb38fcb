// Published vectors and worked cases of document 01 through the proved functions, a line a case: the
// group, the name, then what came out. The file stdout beside src/ has what the documents give.
#![tactic(auto)]

mod addresses;
mod crcs;
mod damaged;
mod files;
mod lists;
mod numbers;
mod tags;
mod unwritten;

use std::io;
use std::io::Write;

fn main(rt: HostRuntime) -> io::Result<()> {
    let mut out = say::out(&rt)?;
    crcs::run(&mut out)?;
    tags::run(&mut out)?;
    numbers::run(&mut out)?;
    lists::run(&mut out)?;
    damaged::run(&mut out)?;
    unwritten::run(&mut out)?;
    addresses::run(&mut out)?;
    files::run(&mut out)?;
    out.flush()
}
