// What a call that is not turned down comes to, and how it is printed.
use model::{Forecast, Opened, Record, Reply};
use std::fmt;
use std::fmt::Display;

#[derive(Clone, Copy)]
pub enum Outcome {
    Made,
    Opened(Opened),
    // the first byte of the block that was read, and the CRC of all
    Read { first: u8, crc: u16 },
    Replied(Reply),
    PerMille(u32),
    Forecast(Forecast),
}

impl Outcome {
    // Of a block that was read.
    pub fn of_block(block: &[u8]) -> Outcome {
        Outcome::Read {
            first: block.first().copied().unwrap_or_default(),
            crc: tag::crc(block, 0),
        }
    }

    // The record that is handed on, if the call hands one.
    pub fn handed(self) -> Option<Record> {
        match self {
            Outcome::Opened(Opened { handed, .. }) => Some(handed),
            Outcome::Replied(Reply::Done(handed)) => Some(handed),
            _ => None,
        }
    }
}

// A record as it is printed.
#[derive(Clone, Copy)]
struct Shown(Record);

impl Display for Shown {
    fn fmt<W: fmt::Write>(&self, f: &mut fmt::Formatter<W>) -> fmt::Result {
        match self.0 {
            Record::WriteOnce {
                entries,
                next,
                last,
            } => write!(f, "N {entries}, NWA {next}, last ICB {last}"),
            Record::Rewritable { entries, sequence } => {
                write!(f, "R {entries}, sequence {sequence}")
            }
        }
    }
}

impl Display for Outcome {
    fn fmt<W: fmt::Write>(&self, f: &mut fmt::Formatter<W>) -> fmt::Result {
        match *self {
            Outcome::Made => write!(f, "made"),
            Outcome::Opened(Opened { handed, passed }) => {
                write!(f, "{}, passed over {passed}", Shown(handed))
            }
            Outcome::Read { first, crc } => write!(f, "bytes {first:02x} .., crc {crc:04x}"),
            Outcome::Replied(Reply::Done(record)) => write!(f, "{}", Shown(record)),
            Outcome::Replied(Reply::Cut) => write!(f, "cut"),
            Outcome::PerMille(n) => write!(f, "per mille {n}"),
            Outcome::Forecast(Forecast::Ends { next, entries }) => {
                write!(f, "ends at NWA {next}, N {entries}")
            }
            Outcome::Forecast(Forecast::Stops { index, why }) => {
                write!(f, "item {index} refused {}", u32::from(why))
            }
        }
    }
}
