// What the test programs print with: where their lines go, and how bytes and answers look in them.
#![tactic(auto)]

ghost use Rattle.std.specs.Prelude.{◌≡◌};
ghost use Rattle.refusal.specs.Number.{answer_number};

use refusal::Refusal;
use std::fmt::Display;
use std::io::{BufWriter, Stdout};
use std::{fmt, io};

// Where the lines go. What is still in the buffer when the program ends is written by `flush`.
pub type Out = BufWriter<Stdout>;

pub fn out(rt: &HostRuntime) -> io::Result<Out> {
    BufWriter::new(rt.alloc(), rt.stdout())
}

// The number of an answer: 0, or the line of 01 by which the call is turned down.
pub fn number<T: Drop>(answer: Result<T, Refusal>) -> u32
    ensures { result ≡ answer_number answer }
{
    match answer {
        Ok(_) => 0,
        Err(why) => u32::from(why),
    }
}

// A run of bytes, printed with two digits each.
#[derive(Clone, Copy)]
pub struct Bytes<'a>(pub &'a [u8]);

impl Display for Bytes<'_> {
    fn fmt<W: fmt::Write>(&self, f: &mut fmt::Formatter<W>) -> fmt::Result {
        for byte in self.0 {
            write!(f, "{byte:02x}")?;
        }
        Ok(())
    }
}

// An answer, printed as its value, or as refused with the number of why.
#[derive(Drop)]
pub struct Answer<T>(pub Result<T, Refusal>);

impl<T: Display> Display for Answer<T> {
    fn fmt<W: fmt::Write>(&self, f: &mut fmt::Formatter<W>) -> fmt::Result {
        match &self.0 {
            Ok(value) => write!(f, "{value}"),
            Err(why) => write!(f, "refused {}", u32::from(*why)),
        }
    }
}
