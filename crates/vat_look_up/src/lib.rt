// A lent VAT file (document 01, "The VAT and its ICB"; "An entry can be looked up in a lent VAT file without loading a table").
// The layers above count on look_up, count_entries and read_previous: each answers for any bytes, with the first refusal
// that applies. VatFile is a view of such bytes, with the same answers.
#![tactic(auto)]

ghost use Rattle.std.specs.Prelude.{◌≡◌};
ghost use Rattle.refusal.specs.Tests.{first};
ghost use Rattle.vat_look_up.specs.File.{file_tests, LooksUp, CountsEntries, ReadsPrevious};

use address::{LogicalAddress, NONE, VirtualAddress};
use fields::Number;
use model::{MOST_ENTRIES, VAT_REGID};
use refusal::Refusal;

// Bytes of an entry, of what follows the entries, and of the previous ICB at the end.
const ENTRY: usize = 4;

const TAIL: usize = 36;

const PREVIOUS: usize = 4;

// The most entries that a VAT may have, as a length.
const MOST: usize = MOST_ENTRIES as usize;

// Whether the bytes are a VAT file with no more entries than a VAT may have.
fn judge_file(file: &[u8]) -> Result<(), Refusal>
    ensures { result ≡ first (file_tests file.now) }
{
    let bytes = file.len();
    if bytes < TAIL {
        return Err(Refusal::NoTable);
    }
    let tail = bytes - TAIL;
    if tail % ENTRY != 0 {
        return Err(Refusal::NoTable);
    }
    if !fields::has_regid(file, tail, &VAT_REGID) {
        return Err(Refusal::NoTable);
    }
    if MOST < tail / ENTRY {
        return Err(Refusal::TooManyEntries);
    }
    Ok(())
}

// The logical address of a virtual one, by the entries of a VAT file.
pub fn look_up(file: &[u8], v: VirtualAddress) -> Result<LogicalAddress, Refusal>
    ensures { LooksUp file.now v result }
{
    judge_file(file)?;
    let i = v.0 as usize;
    if (file.len() - TAIL) / ENTRY <= i {
        return Err(Refusal::NumberOutside);
    }
    address::entry_to_logical(u32::read(file, ENTRY * i))
}

// The number of entries of a VAT file.
pub fn count_entries(file: &[u8]) -> Result<u32, Refusal>
    ensures { CountsEntries file.now result }
{
    judge_file(file)?; // lines 8 and 9
    Ok(((file.len() - TAIL) / ENTRY) as u32)
}

// The previous VAT ICB that a VAT file names.
pub fn read_previous(file: &[u8]) -> Result<Option<LogicalAddress>, Refusal>
    ensures { ReadsPrevious file.now result }
{
    judge_file(file)?;
    let previous = u32::read(file, file.len() - PREVIOUS);
    if previous == NONE {
        return Ok(None);
    }
    Ok(Some(LogicalAddress(previous)))
}

// A view of the bytes of a VAT file. Any bytes can be viewed: its functions test them.
#[derive(Clone, Copy)]
pub struct VatFile<'a> {
    pub bytes: &'a [u8],
}

impl<'a> VatFile<'a> {
    // The view of lent bytes.
    pub fn new(bytes: &'a [u8]) -> VatFile<'a>
        ensures { result.bytes ≡ bytes.entry }
    {
        VatFile { bytes }
    }

    // The logical address of a virtual one.
    pub fn look_up(self, v: VirtualAddress) -> Result<LogicalAddress, Refusal>
        ensures { LooksUp self.entry.bytes.now v result }
    {
        look_up(self.bytes, v)
    }

    // The number of entries.
    pub fn entry_count(self) -> Result<u32, Refusal>
        ensures { CountsEntries self.entry.bytes.now result }
    {
        count_entries(self.bytes)
    }

    // The previous VAT ICB.
    pub fn previous(self) -> Result<Option<LogicalAddress>, Refusal>
        ensures { ReadsPrevious self.entry.bytes.now result }
    {
        read_previous(self.bytes)
    }
}
