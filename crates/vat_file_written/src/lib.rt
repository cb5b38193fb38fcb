// The file of a VAT, written into the ICB's lent bytes or into one lent sector at a time (document 01, "The VAT
// and its ICB").
// The layers above count on the bytes being those of the model's file: its parts, and written_data.
// All functions here are inside the layers: each requires what its callers have shown. That there are at most 4,096
// entries is in the type of a VAT, and is required where a number of entries is given alone.
#![tactic(auto)]

ghost use Rattle.std.specs.Prelude.{◌≡◌, ◌+◌, ◌*◌, ◌%◌, ◌≤◌, ◌<◌, ltb, length};
ghost use Rattle.fields.specs.Bytes.{part};
ghost use Rattle.model.specs.VatWritten.{file_bytes, data_sectors, written_data};
ghost use Rattle.vat_file_written.specs.Parts.{tail, onward, file_from};

use address::LogicalAddress;
use fields::Number;
use model::VAT_REGID;

// The bytes of a sector and of an entry, and the entries that fill a sector.
const SECTOR: u32 = 2048;

const ENTRY: u32 = 4;

const ENTRY_BYTES: usize = ENTRY as usize;

const ENTRIES_IN_SECTOR: u32 = SECTOR / ENTRY;

// The bytes of an ICB before the allocation.
const BEFORE_ALLOCATION: u32 = 176;

// The tail of the file: the regid with its name, and after it the previous ICB.
const REGID_AT: usize = 0;

const PREVIOUS_AT: usize = 32;

const TAIL: u32 = 36;

const TAIL_BYTES: usize = TAIL as usize;

// F, the bytes of the file of n entries.
#[tactic(auto, unfolding(model::specs::VatWritten::file_bytes))]
pub fn file_bytes(n: u32) -> u32
    requires { n ≤ 4096 }
    ensures { result ≡ file_bytes n }
{
    ENTRY * n + TAIL
}

// Whether the file of n entries stands in the ICB itself.
#[tactic(auto, unfolding(model::specs::VatWritten::file_bytes))]
pub fn is_embedded(n: u32) -> bool
    requires { n ≤ 4096 }
    ensures { result ≡ ltb (176 + file_bytes n) 2048 }
{
    BEFORE_ALLOCATION + file_bytes(n) < SECTOR
}

// d, the data sectors of n entries: none if embedded.
pub fn data_sectors(n: u32) -> u32
    requires { n ≤ 4096 }
    ensures { result ≡ data_sectors n }
{
    if is_embedded(n) {
        return 0;
    }
    (file_bytes(n) + (SECTOR - 1)) / SECTOR
}

// A VAT that is written: its entries, and the ICB of the VAT before it.
#[derive(Clone, Copy)]
pub struct Vat<'a> {
    pub entries: &'a [u32],
    pub previous: LogicalAddress,
    pub ghost few: { length entries.now ≤ 4096 },
}

// The tail of the file.
fn tail_of(previous: LogicalAddress) -> [u8; TAIL_BYTES]
    ensures { result ≡ tail previous.0 }
{
    let mut bytes = [0u8; TAIL_BYTES];
    fields_written::write_regid(&mut bytes, REGID_AT, &VAT_REGID);
    previous.0.write(&mut bytes, PREVIOUS_AT);
    bytes
}

// Writes the tail of the file from its byte `from` on, as much of it as fits, and zeros after it.
fn write_tail(rest: &mut [u8], from: usize, previous: LogicalAddress)
    requires { from + length rest.old ≤ 65536 }
    ensures { rest.new ≡ onward (tail previous.0) from (length rest.old) }
{
    rest.fill(0);
    let bytes = tail_of(previous);
    let begun = from.min(TAIL_BYTES);
    let count = (TAIL_BYTES - begun).min(rest.len());
    rest[..count].copy_from_slice(&bytes[begun..begun + count]);
}

impl<'a> Vat<'a> {
    // N, the number of entries.
    pub fn count(&self) -> u32
        ensures { result ≡ length self.now.entries.now }
    {
        self.entries.len() as u32
    }

    // Writes the file from where entry number `first` stands, or would stand, on: the entries that fall into the
    // lent bytes, and the tail straight after the last one.
    pub fn write_file(&self, s: &mut [u8], first: usize)
        requires s_len { (length s.old % 4 ≡ 0) × (length s.old ≤ 2048) }
        requires first_bound { first ≤ 4608 }
        ensures { s.new ≡ file_from self.now.entries.now self.now.previous.0 first (length s.old) }
    {
        let all = self.entries.len();
        let begun = first.min(all);
        let count = (all - begun).min(s.len() / ENTRY_BYTES);
        fields_written::write_numbers(s, 0, &self.entries[begun..begun + count]);
        let at = ENTRY_BYTES * count;
        let from = ENTRY_BYTES * (first - begun);
        write_tail(&mut s[at..], from, self.previous);
    }

    // Writes data sector number i of the file.
    pub fn write_data(&self, sector: &mut [u8], i: u32)
        requires sector_len { length sector.old ≡ 2048 }
        requires i_bound { i < data_sectors (length self.now.entries.now) }
        ensures { sector.new ≡ part (written_data self.now.entries.now self.now.previous.0) (2048 * i) 2048 }
    {
        let first = (ENTRIES_IN_SECTOR * i) as usize;
        self.write_file(sector, first);
    }
}
