// The ICB of a VAT, written into a lent sector (document 01, "The VAT and its ICB").
// The layers above count on the bytes being those of the model's written_icb.
// All functions here are inside the layers: each requires what its callers have shown. That there are at most 4,096
// entries is in the type of a VAT, and is required where a number of entries is given alone.
#![tactic(auto)]

ghost use Rattle.std.specs.Prelude.{◌≡◌, ◌++◌, ◌≤◌, length, replicate};
ghost use Rattle.model.specs.VatWritten.{data_sectors, written_form, filled, written_allocation, written_icb};
ghost use Rattle.vat_icb.specs.Form.{form_number};
ghost use Rattle.vat_icb_written.specs.Parts.{allocation_bytes, entry_head, summed_tag};

use address::LogicalAddress;
use fields::Number;
use tag::{CHECKSUM_AT, CRC_AT, CRC_LENGTH_AT, IDENTIFIER_AT, LOCATION_AT, TAG_BYTES, VERSION_AT};
use vat_file_written::Vat;
use vat_icb::{
    ALLOCATION_AT, ALLOCATION_LENGTH_AT, ATTRIBUTES_AT, BLOCK_AT, FILE_ENTRY, FORM_AT, Form,
    INFORMATION_LENGTH_AT, PAIR, STRATEGY, STRATEGY_AT, VERSION,
};

// What the CRC starts from.
const CRC_START: u16 = 0;

// Fields of a File Entry that are written and not read, and values as they are written.
const ENTRIES_AT: usize = 24;

const ENTRIES: u16 = 1;

const BLOCKS_AT: usize = 64;

const ATTRIBUTES: u32 = 0;

// An extent: its length, and its first logical block.
const EXTENT_LENGTH_AT: usize = 0;

const EXTENT: u32 = PAIR as u32;

// How the file of n entries is held.
#[tactic(auto, unfolding(model::specs::VatWritten::written_form))]
fn form_of(n: u32) -> Form
    requires { n ≤ 4096 }
    ensures { form_number result ≡ written_form n }
{
    if vat_file_written::is_embedded(n) {
        Form::Embedded
    } else {
        Form::ShortAds
    }
}

// A, the bytes of the allocation of n entries.
#[tactic(auto, unfolding(crate::specs::Parts::allocation_bytes))]
fn allocation_bytes(n: u32) -> u32
    requires { n ≤ 4096 }
    ensures { result ≡ allocation_bytes n }
{
    if vat_file_written::is_embedded(n) {
        vat_file_written::file_bytes(n)
    } else {
        EXTENT
    }
}

// Writes the File Entry of n entries up to its allocation, its tag left as 0.
fn write_entry(front: &mut [u8], n: u32)
    requires front_len { length front.old ≡ 176 }
    requires n_bound { n ≤ 4096 }
    ensures { front.new ≡ replicate 16 0 ++ entry_head n }
{
    front.fill(0);
    STRATEGY.write(front, STRATEGY_AT);
    ENTRIES.write(front, ENTRIES_AT);
    form_of(n).number().write(front, FORM_AT);
    u64::from(vat_file_written::file_bytes(n)).write(front, INFORMATION_LENGTH_AT);
    u64::from(vat_file_written::data_sectors(n)).write(front, BLOCKS_AT);
    ATTRIBUTES.write(front, ATTRIBUTES_AT);
    allocation_bytes(n).write(front, ALLOCATION_LENGTH_AT);
}

// Writes the allocation of a VAT, for an ICB at logical block k: the file, or one extent directly below k.
fn write_allocation(rest: &mut [u8], k: LogicalAddress, vat: &Vat)
    requires rest_len { length rest.old ≡ 1872 }
    requires data_below { data_sectors (length vat.now.entries.now) ≤ k.0 }
    ensures { rest.new ≡ filled 1872 (written_allocation k.0 vat.now.entries.now vat.now.previous.0) }
{
    let n = vat.count();
    if vat_file_written::is_embedded(n) {
        vat.write_file(rest, 0);
        return;
    }
    rest.fill(0);
    vat_file_written::file_bytes(n).write(rest, EXTENT_LENGTH_AT);
    let block = k.0 - vat_file_written::data_sectors(n);
    block.write(rest, BLOCK_AT);
}

// Writes the tag of a File Entry at logical block k, with this CRC of so many bytes; the checksum last.
fn write_tag(front: &mut [u8], k: LogicalAddress, crc: u16, covered: u16)
    requires { length front.old ≡ 16 }
    ensures { front.new ≡ summed_tag k.0 crc covered }
{
    front.fill(0);
    FILE_ENTRY.write(front, IDENTIFIER_AT);
    VERSION.write(front, VERSION_AT);
    crc.write(front, CRC_AT);
    covered.write(front, CRC_LENGTH_AT);
    k.0.write(front, LOCATION_AT);
    let sum = tag::checksum(front);
    front[CHECKSUM_AT] = sum;
}

// Writes the ICB of a VAT at logical block k.
pub fn write_icb(sector: &mut [u8], k: LogicalAddress, vat: &Vat)
    requires sector_len { length sector.old ≡ 2048 }
    requires data_below { data_sectors (length vat.now.entries.now) ≤ k.0 }
    ensures { sector.new ≡ written_icb k.0 vat.now.entries.now vat.now.previous.0 }
{
    let n = vat.count();
    write_entry(&mut sector[..ALLOCATION_AT], n);
    write_allocation(&mut sector[ALLOCATION_AT..], k, vat);
    let end = ALLOCATION_AT + allocation_bytes(n) as usize;
    let crc = tag::crc(&sector[TAG_BYTES..end], CRC_START);
    let covered = (end - TAG_BYTES) as u16;
    write_tag(&mut sector[..TAG_BYTES], k, crc, covered);
}
