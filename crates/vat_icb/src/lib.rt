// The ICB of a VAT (document 01, "The VAT and its ICB"): its tag, its File Entry and its extents.
// The layers above count on the equations: each function gives what the definition of its name gives.
// A block is tested and turned into a type that says what it was tested for: an Icb has the bytes of a sector, and
// a FileEntry is one whose strategy, file type, form and lengths are those of a VAT ICB.
// All functions here are inside the layers: where one has a `requires`, the callers have tested it.
#![tactic(auto)]

ghost use Rattle.std.specs.Prelude.{◌≡◌, ◌≢◌, true, false, List, ℕ, ◌+◌, ◌≤◌, ◌<◌, length, MatchOption};
ghost use Rattle.model.specs.Disc.{disc as disc_of};
ghost use Rattle.vat_icb.specs.Extents.{extent_fits};
ghost use Rattle.model.specs.Vat.{tag_fits, form, file_length, attributes, allocation, entry_fits, extents, allocation_fits};
ghost use Rattle.fields.specs.Bytes.{part};
ghost use Rattle.std.specs.Iterator.{YieldsFirstBy, item_count};
ghost use Rattle.vat_icb.specs.Form.{form_number};

use address::LogicalAddress;
use fields::Number;
use model::SECTOR;
use tag::{CRC_LENGTH_AT, IDENTIFIER_AT, LOCATION_AT, RESERVED_AT, VERSION_AT};

// The bytes of a sector, as an extent counts them.
pub const SECTOR_BYTES: u32 = SECTOR as u32;

// What some fields of its tag must be.
pub const FILE_ENTRY: u16 = 261;

pub const VERSION: u16 = 2;

const LEAST_CRC_LENGTH: u16 = 160;

const MOST_CRC_LENGTH: u16 = 2032;

// The fields of a File Entry behind its tag, and what some of them must be.
pub const STRATEGY_AT: usize = 20;

const FILE_TYPE_AT: usize = 27;

pub const FORM_AT: usize = 34;

pub const INFORMATION_LENGTH_AT: usize = 56;

pub const ATTRIBUTES_AT: usize = 168;

pub const ALLOCATION_LENGTH_AT: usize = 172;

pub const ALLOCATION_AT: usize = 176;

pub const STRATEGY: u16 = 4;

const FORMS: u8 = 8;

pub const SHORT_ADS: u8 = Form::ShortAds as u8;

pub const EMBEDDED: u8 = Form::Embedded as u8;

// A short_ad: a length, below a limit where its upper two bits are 0, and a logical block.
pub const PAIR: usize = 8;

pub const BLOCK_AT: usize = 4;

const EXTENT_LIMIT: u32 = 1073741824;

// ---- what a block is read as

// How a file is held: by short_ads, or embedded.
#[derive(Clone, Copy)]
pub enum Form {
    ShortAds = 0,
    Embedded = 3,
}

impl Form {
    // Its number in the low three bits of byte 34.
    pub fn number(self) -> u16
        ensures { result ≡ form_number self }
    {
        self as u16
    }
}

// A block that is read as an ICB. It has the bytes of a sector.
#[derive(Clone, Copy)]
pub struct Icb<'a> {
    pub bytes: &'a [u8],
    pub ghost block: { length bytes.now ≡ 2048 },
}

// A block whose strategy, file type, form and lengths are those of a VAT ICB.
#[derive(Clone, Copy)]
pub struct FileEntry<'a> {
    pub icb: Icb<'a>,
    pub ghost entry: { entry_fits icb.bytes.now ≡ true },
}

// A run of logical blocks: its bytes, and its first block.
#[derive(Clone, Copy)]
pub struct Extent {
    pub size: u32,
    pub block: LogicalAddress,
}

// The extents that are left of a row of short_ads: those before the first length of zero.
#[derive(Drop)]
pub struct Extents<'a> {
    pub pairs: &'a [u8],
}

// ---- the tag and the File Entry

impl<'a> Icb<'a> {
    // Whether the tag is that of a File Entry at logical block `k`; the cheapest tests come first.
    #[tactic(auto, unfolding(model::specs::Vat::tag_fits, tag::specs::Sound::sound, tag::specs::Sound::crc_of))]
    pub fn tag_fits(&self, k: LogicalAddress) -> bool
        ensures { result ≡ tag_fits k.0 self.now.bytes.now }
    {
        let icb = self.bytes;
        let covered = u16::read(icb, CRC_LENGTH_AT);
        u16::read(icb, IDENTIFIER_AT) == FILE_ENTRY
            && u16::read(icb, VERSION_AT) == VERSION
            && icb[RESERVED_AT] == 0
            && LEAST_CRC_LENGTH <= covered
            && covered <= MOST_CRC_LENGTH
            && u32::read(icb, LOCATION_AT) == k.0
            && tag::is_sound(icb)
    }

    // How the file is held, if it is in one of the two ways.
    #[tactic(auto, unfolding(model::specs::Vat::form))]
    fn form(&self) -> Option<Form>
        ensures { MatchOption result ((form self.now.bytes.now ≢ 0) × (form self.now.bytes.now ≢ 3)) (λ f. form_number f ≡ form self.now.bytes.now) }
    {
        match self.bytes[FORM_AT] % FORMS {
            SHORT_ADS => Some(Form::ShortAds),
            EMBEDDED => Some(Form::Embedded),
            _ => None,
        }
    }

    // F, the bytes of the file.
    #[tactic(auto, unfolding(model::specs::Vat::file_length))]
    pub fn file_length(&self) -> u64
        ensures { result ≡ file_length self.now.bytes.now }
    {
        u64::read(self.bytes, INFORMATION_LENGTH_AT)
    }

    // E, the bytes of the attributes.
    #[tactic(auto, unfolding(model::specs::Vat::attributes))]
    fn attributes(&self) -> u32
        ensures { result ≡ attributes self.now.bytes.now }
    {
        u32::read(self.bytes, ATTRIBUTES_AT)
    }

    // A, the bytes of the allocation.
    #[tactic(auto, unfolding(model::specs::Vat::allocation))]
    fn allocation(&self) -> u32
        ensures { result ≡ allocation self.now.bytes.now }
    {
        u32::read(self.bytes, ALLOCATION_LENGTH_AT)
    }

    // Whether strategy, file type, form and lengths of a File Entry are those of a VAT ICB.
    #[tactic(auto, unfolding(model::specs::Vat::entry_fits))]
    fn entry_fits(&self) -> bool
        ensures { result ≡ entry_fits self.now.bytes.now }
    {
        u16::read(self.bytes, STRATEGY_AT) == STRATEGY
            && self.bytes[FILE_TYPE_AT] == 0
            && self.form().is_some()
            && ALLOCATION_AT + self.attributes() as usize + self.allocation() as usize <= SECTOR
    }

    // The block as a File Entry, if strategy, file type, form and lengths are those of a VAT ICB.
    pub fn entry(&self) -> Option<FileEntry<'a>>
        ensures { MatchOption result (entry_fits self.now.bytes.now ≡ false) (λ e. e.icb.bytes.now ≡ self.now.bytes.now) }
    {
        if self.entry_fits() {
            Some(FileEntry { icb: *self })
        } else {
            None
        }
    }
}

// ---- the extents

// Whether an extent is short enough, ends at `k` at most, and is recorded.
#[tactic(auto, using(crate::proofs::Laws::run_there), unfolding(crate::specs::Extents::extent_fits, model::specs::Vat::blocks_in))]
pub fn extent_fits(
    marks: &[u8],
    s: u32,
    k: LogicalAddress,
    size: u32,
    block: LogicalAddress,
) -> bool
    requires { (s + k.0 ≤ length marks.now) × (length marks.now ≤ 1048576) }
    ensures { (bytes : List ℕ) → result ≡ extent_fits (disc_of bytes marks.now) s k.0 size block.0 }
{
    if EXTENT_LIMIT <= size {
        return false;
    }
    let blocks = ((size + (SECTOR_BYTES - 1)) / SECTOR_BYTES) as usize;
    let from = block.0 as usize;
    if (k.0 as usize) < from + blocks {
        return false;
    }
    disc_marks::all_recorded(marks, address::sector_of(s, block), blocks)
}

impl<'a> Iterator for Extents<'a> {
    type Item = Extent;

    ghost use Rattle.vat_icb.specs.Extents.{extent_of, extents_left};

    ghost next_gives = { YieldsFirstBy extent_of extents_left };

    ghost remaining = { item_count extents_left };

    fn next(&mut self) -> Option<Extent> {
        let (pair, others) = self.pairs.split_first_chunk::<PAIR>()?;
        let size = u32::read(pair, 0);
        if size == 0 {
            return None;
        }
        self.pairs = others;
        Some(Extent {
            size,
            block: LogicalAddress(u32::read(pair, BLOCK_AT)),
        })
    }
}

impl<'a> FileEntry<'a> {
    ghost use Rattle.vat_icb.specs.Extents.{extent_fits, extents_fit, extents_left};

    // How the file is held.
    #[tactic(auto, using(crate::proofs::Entry::form_known))]
    pub fn form(&self) -> Form
        ensures { form_number result ≡ form self.now.icb.bytes.now }
    {
        match self.icb.form() {
            Some(form) => form,
            None => unreachable!(),
        }
    }

    // The allocation: the file itself, or short_ads.
    #[tactic(auto, using(crate::proofs::Entry::entry_ends), unfolding(fields::specs::Bytes::part))]
    pub fn allocation(&self) -> &'a [u8]
        ensures { let b = self.now.icb.bytes.now in (result.now ≡ part b (176 + attributes b) (allocation b)) × (length result.now ≡ allocation b) }
    {
        let first = ALLOCATION_AT + self.icb.attributes() as usize;
        let end = first + self.icb.allocation() as usize;
        &self.icb.bytes[first..end]
    }

    // The extents that the allocation names, where it is short_ads.
    pub fn extents(&self) -> Extents<'a>
        ensures { extents_left result ≡ extents self.now.icb.bytes.now }
    {
        Extents {
            pairs: self.allocation(),
        }
    }

    // Whether the extents fit, and add up to F. An extent whose length is no multiple of a sector is the last.
    fn extents_fit(&self, marks: &[u8], s: u32, k: LogicalAddress) -> bool
        requires { (s + k.0 ≤ length marks.now) × (length marks.now ≤ 1048576) }
        ensures { (bytes : List ℕ) → result ≡ extents_fit (disc_of bytes marks.now) s k.0 (file_length self.now.icb.bytes.now) true 0 (extents self.now.icb.bytes.now) }
    {
        let mut whole = true;
        let mut sum: u64 = 0;
        for extent in self.extents() {
            if !whole || !extent_fits(marks, s, k, extent.size, extent.block) {
                return false;
            }
            whole = extent.size % SECTOR_BYTES == 0;
            sum += extent.size as u64;
        }
        sum == self.icb.file_length()
    }

    // Whether the allocation is right: embedded it is all of the file, else it is extents that fit.
    #[tactic(auto, using(crate::proofs::Laws::allocation_extents), unfolding(model::specs::Vat::allocation_fits))]
    pub fn allocation_fits(&self, marks: &[u8], s: u32, k: LogicalAddress) -> bool
        requires { (s + k.0 ≤ length marks.now) × (length marks.now ≤ 1048576) }
        ensures { (bytes : List ℕ) → result ≡ allocation_fits (disc_of bytes marks.now) s k.0 self.now.icb.bytes.now }
    {
        let bytes = self.allocation().len();
        match self.form() {
            Form::Embedded => bytes as u64 == self.icb.file_length(),
            Form::ShortAds => bytes % PAIR == 0 && self.extents_fit(marks, s, k),
        }
    }
}
