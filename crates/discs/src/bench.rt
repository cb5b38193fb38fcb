// What the calls are lent and handed, and what each command does to it.
ghost use Rattle.std.specs.Prelude.{◌≡◌, take};

use crate::command::{self, Call, Command, Lengths};
use crate::outcome::Outcome;
use address::Span;
use fields::Number;
use maps::{Kind, Volume};
use model::{Cut, Effect, PACKET_BYTES, Record, SECTOR, VAT_REGID};
use refusal::Refusal;
use say::{Answer, Out};
use std::io;
use std::io::Write;
use tag::{CHECKSUM_AT, CRC_AT, CRC_LENGTH_AT, IDENTIFIER_AT, LOCATION_AT, TAG_BYTES, VERSION_AT};

// How many sectors the disc has, and how many entries the table.
pub const SECTORS: usize = 2144;

const ENTRIES: usize = 4096;

// The bytes of a map list: of a write-once volume, and of a rewritable one.
const WRITE_ONCE: usize = 70;

const REWRITABLE: usize = 64;

// A block and a packet have a byte to spare.
const BLOCK: usize = 2049;

const PACKET: usize = 65537;

// The identifier of a File Entry's tag, and its version.
const FILE_ENTRY: u16 = 261;

const VERSION: u16 = 2;

// The disc is lent beside the bench: inside it, it would stand in memory twice while a bench is made.
pub type Disc = [[u8; SECTOR]; SECTORS];

#[derive(Drop)]
pub struct Bench {
    // lent, as the disc is: as much of each as `lent` says
    marks: [u8; SECTORS],
    table: [u32; ENTRIES],
    list: [u8; WRITE_ONCE],
    block: [u8; BLOCK],
    packet: [u8; PACKET],
    lent: Lengths,
    // handed
    span: Span,
    held: Record,
    cut: Cut,
}

// The disc's partition, no record, no cut, everything lent.
const FRESH_SPAN: Span = Span {
    start: 2,
    length: 20,
};

const FRESH_RECORD: Record = Record::WriteOnce {
    entries: 0,
    next: 0,
    last: 0,
};

const FRESH_CUT: Cut = Cut {
    at: 0,
    effect: Effect::Old,
};

const ALL: Lengths = Lengths {
    disc: SECTOR * SECTORS,
    marks: SECTORS,
    table: ENTRIES,
    list: WRITE_ONCE,
    block: SECTOR,
    packet: PACKET_BYTES,
};

// The first elements, as many as there are at most.
fn first<T>(items: &[T], n: usize) -> &[T]
    ensures { result.now ≡ take n items.now }
{
    &items[..n.min(items.len())]
}

fn first_mut<T>(items: &mut [T], n: usize) -> &mut [T]
    ensures { result.now ≡ take n items.old }
{
    let n = n.min(items.len());
    &mut items[..n]
}

// Sets an element, if it is there.
fn set<T: Copy>(items: &mut [T], at: usize, item: T) {
    if let Some(place) = items.get_mut(at) {
        *place = item;
    }
}

// Sets the bytes from `at` on, if all are there.
fn put(bytes: &mut [u8], at: usize, part: &[u8]) {
    if let Some(rest) = bytes.get_mut(at..)
        && let Some(place) = rest.get_mut(..part.len())
    {
        place.copy_from_slice(part);
    }
}

// Sets a number of 4 bytes in a sector, if all are there.
fn poke(disc: &mut Disc, at: usize, place: usize, number: u32) {
    if let Some(sector) = disc.get_mut(at) {
        put(sector, place, &number.to_le_bytes());
    }
}

impl Bench {
    pub fn new() -> Bench {
        Bench {
            marks: [0; SECTORS],
            table: [0; ENTRIES],
            list: [0; WRITE_ONCE],
            block: [0; BLOCK],
            packet: [0; PACKET],
            lent: ALL,
            span: FRESH_SPAN,
            held: FRESH_RECORD,
            cut: FRESH_CUT,
        }
    }

    // Does what a line asks for, and prints what came of it.
    pub fn run(&mut self, out: &mut Out, disc: &mut Disc, command: Command<'_>) -> io::Result<()> {
        match command {
            Command::Clear => self.clear(disc),
            Command::Span(span) => self.span = span,
            Command::Held(held) => self.held = held,
            Command::Cut(cut) => self.cut = cut,
            Command::Lend(lent) => self.lent = lent,
            Command::Mark { sector, mark } => set(&mut self.marks, sector, mark),
            Command::Put { sector, mark } => {
                self.record(disc, sector);
                set(&mut self.marks, sector, mark);
            }
            Command::Poke { sector, at, number } => poke(disc, sector, at, number),
            Command::Show { sector } => self.show(out, disc, sector)?,
            Command::Entry { number, block } => set(&mut self.table, number, block),
            Command::Fill(numbers) => self.fill(numbers),
            Command::Table => self.show_table(out)?,
            Command::Numbers { count } => self.show_numbers(out, count)?,
            Command::List(volume) => self.set_list(volume),
            Command::ListByte { at, byte } => set(&mut self.list, at, byte),
            Command::Blocks(byte) => self.set_blocks(byte),
            Command::Bytes(byte) => self.block.fill(byte),
            Command::Set8 { at, number } => set(&mut self.block, at, number),
            Command::Set16 { at, number } => put(&mut self.block, at, &number.to_le_bytes()),
            Command::Set32 { at, number } => put(&mut self.block, at, &number.to_le_bytes()),
            Command::Regid { at } => put(&mut self.block, at, &VAT_REGID),
            Command::Tagged { block, covered } => self.set_tag(block, covered),
            Command::Sum => self.set_sum(),
            Command::Call(call) => self.call(out, disc, call)?,
        }
        Ok(())
    }

    fn clear(&mut self, disc: &mut Disc) {
        for sector in disc.iter_mut() {
            *sector = [0; SECTOR];
        }
        self.marks.fill(0);
        self.lent = ALL;
        self.span = FRESH_SPAN;
        self.held = FRESH_RECORD;
        self.cut = FRESH_CUT;
        self.set_list(command::write_once());
    }

    // Writes a volume's list, and lends as much of it.
    fn set_list(&mut self, volume: Volume) {
        let n = match volume.kind {
            Kind::WriteOnce { .. } => WRITE_ONCE,
            Kind::Rewritable { .. } => REWRITABLE,
        };
        self.lent.list = n;
        let _ = maps_written::write_maps(volume, &mut self.list[..n]);
    }

    // Writes the block to a sector.
    fn record(&self, disc: &mut Disc, at: usize) {
        if let Some(sector) = disc.get_mut(at) {
            sector.copy_from_slice(&self.block[..SECTOR]);
        }
    }

    fn show(&self, out: &mut Out, disc: &Disc, at: usize) -> io::Result<()> {
        if let Some(sector) = disc.get(at)
            && let Some(mark) = self.marks.get(at)
        {
            return write!(out, ": mark {mark:02x}, crc {:04x}", tag::crc(sector, 0));
        }
        Ok(())
    }

    fn fill(&mut self, numbers: [u32; 4]) {
        for (i, entry) in self.table.iter_mut().enumerate() {
            *entry = numbers[i % 4];
        }
    }

    // The CRC of the table's numbers, 4 bytes each.
    fn show_table(&self, out: &mut Out) -> io::Result<()> {
        let crc = self
            .table
            .iter()
            .fold(0, |crc, number| tag::crc(&number.to_le_bytes(), crc));
        write!(out, ": crc {crc:04x}")
    }

    // The first numbers of the table.
    fn show_numbers(&self, out: &mut Out, count: usize) -> io::Result<()> {
        write!(out, ":")?;
        for number in first(&self.table, count) {
            write!(out, " {number}")?;
        }
        Ok(())
    }

    fn set_blocks(&mut self, byte: u8) {
        for (i, block) in self.packet.chunks_mut(SECTOR).enumerate() {
            block.fill(byte.wrapping_add((i % 256) as u8));
        }
    }

    // The tag of a File Entry, with the CRC of so many bytes behind it, of those up to the sector's end at most.
    fn set_tag(&mut self, location: u32, covered: u32) {
        let end = TAG_BYTES + (covered as usize).min(SECTOR - TAG_BYTES);
        let crc = tag::crc(&self.block[TAG_BYTES..end], 0);
        FILE_ENTRY.write(&mut self.block, IDENTIFIER_AT);
        VERSION.write(&mut self.block, VERSION_AT);
        0u32.write(&mut self.block, CHECKSUM_AT);
        crc.write(&mut self.block, CRC_AT);
        let length = (covered % 65536) as u16;
        length.write(&mut self.block, CRC_LENGTH_AT);
        location.write(&mut self.block, LOCATION_AT);
        self.set_sum();
    }

    // The tag's checksum.
    fn set_sum(&mut self) {
        let sum = tag::checksum(&self.block);
        self.block[CHECKSUM_AT] = sum;
    }

    // Calls, prints the answer, and keeps the record that it hands on.
    fn call(&mut self, out: &mut Out, disc: &mut Disc, call: Call<'_>) -> io::Result<()> {
        let answer = self.answer(disc, call);
        if let Ok(outcome) = answer
            && let Some(record) = outcome.handed()
        {
            self.held = record;
        }
        write!(out, ": {}", Answer(answer))
    }

    fn answer(&mut self, disc: &mut Disc, call: Call<'_>) -> Result<Outcome, Refusal> {
        let disc = first_mut(disc.as_flattened_mut(), self.lent.disc);
        let marks = first_mut(&mut self.marks, self.lent.marks);
        let table = first_mut(&mut self.table, self.lent.table);
        let maps = first(&self.list, self.lent.list);
        let block = first_mut(&mut self.block, self.lent.block);
        let packet = first(&self.packet, self.lent.packet);
        let Span {
            start: s,
            length: l,
        } = self.span;
        let held = self.held;
        let cut = self.cut;
        match call {
            Call::Make { spares, count } => {
                blocks::make(disc, marks, maps, s, l, first(&spares, count))?;
                Ok(Outcome::Made)
            }
            Call::Open => {
                let opened = blocks::open(disc, marks, maps, s, l, table)?;
                Ok(Outcome::Opened(opened))
            }
            Call::Read(v) => {
                blocks::read(disc, marks, maps, s, l, table, held, v, block)?;
                Ok(Outcome::of_block(block))
            }
            Call::Fullness => {
                let n = blocks::fullness(disc, marks, maps, s, l, table, held)?;
                Ok(Outcome::PerMille(n))
            }
            Call::Forecast(items) => {
                let forecast = blocks::forecast(disc, marks, maps, s, l, table, held, items)?;
                Ok(Outcome::Forecast(forecast))
            }
            Call::Save(v) => {
                let reply = blocks::save_virtual(
                    disc, marks, maps, s, l, table, held, v, block, cut,
                )?;
                Ok(Outcome::Replied(reply))
            }
            Call::Free(v) => {
                let reply = blocks::free_virtual(disc, marks, maps, s, l, table, held, v)?;
                Ok(Outcome::Replied(reply))
            }
            Call::Commit => {
                let reply = blocks::commit(disc, marks, maps, s, l, table, held, cut)?;
                Ok(Outcome::Replied(reply))
            }
            Call::Change(b) => {
                let reply = blocks::save_block(
                    disc, marks, maps, s, l, table, held, b, block, cut,
                )?;
                Ok(Outcome::Replied(reply))
            }
            Call::Packet(b) => {
                let reply = blocks::save_packet(
                    disc, marks, maps, s, l, table, held, b, packet, cut,
                )?;
                Ok(Outcome::Replied(reply))
            }
            Call::Spare(b) => {
                let reply = blocks::spare_packet(
                    disc, marks, maps, s, l, table, held, b, packet, cut,
                )?;
                Ok(Outcome::Replied(reply))
            }
        }
    }
}
