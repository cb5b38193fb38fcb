// A VAT ICB recognised, and the entries of its VAT read (document 01, "The VAT and its ICB").
// The layers above count on passes, entry_count and fill: each gives what the definition of its name gives.
// The file of an ICB is never copied: its bytes are read by position, through its extents, where they stand.
// All functions here are inside the layers: where one has a `requires`, the callers have tested it.
#![tactic(auto)]

ghost use Rattle.std.specs.Prelude.{◌≡◌, ◌≢◌, true, List, ℕ, ◌+◌, ◌-◌, ◌*◌, ◌/◌, ◌≤◌, ◌<◌, length, get_or};
ghost use Rattle.fields.specs.Number.{words};
ghost use Rattle.fields.specs.Bytes.{splice};
ghost use Rattle.fields.specs.Regid.{has_regid};
ghost use Rattle.model.specs.Disc.{disc as disc_of};
ghost use Rattle.model.specs.Vat.{vat_name, count_of, entries_of, all_below, form, table_fits, passes as passesAt, vat_icb, vat_file};
ghost use Rattle.model.specs.Once.{filled_from};
ghost use Rattle.vat_read.specs.File.{Lent, Filed, Standing, Together};

use address::{LogicalAddress, NONE};
use fields::{Number, SUFFIX_AT};
use model::{SECTOR, VAT_REGID};
use vat_icb::{FileEntry, Form, Icb};

// A VAT file: entries, a regid and the previous ICB.
const ENTRY: u64 = 4;

const WORD: usize = ENTRY as usize;

const TAIL: u64 = 36;

// ---- words

// Whether the words of some bytes are all below `k`, or none. It counts those that are not, with no early way out.
fn words_fit(bytes: &[u8], k: LogicalAddress) -> bool
    ensures { result ≡ all_below k.0 (words bytes.now 0 (length bytes.now / 4)) }
{
    let k = k.0;
    let (words, _) = bytes.as_chunks::<WORD>();
    let mut over: usize = 0;
    for word in words {
        let e = u32::read(word, 0);
        if e != NONE && k <= e {
            over += 1;
        }
    }
    over == 0
}

// Puts the words of some bytes into the table from place `from` on.
fn put_words(bytes: &[u8], table: &mut [u32], from: usize)
    requires { from + length bytes.now / 4 ≤ length table.old }
    ensures { table.new ≡ splice table.old from (words bytes.now 0 (length bytes.now / 4)) }
{
    let (words, _) = bytes.as_chunks::<WORD>();
    for (i, word) in words.iter().enumerate() {
        table[from + i] = u32::read(word, 0);
    }
}

// ---- the file, by position

// The file of a File Entry that is all on the lent disc.
#[derive(Clone, Copy)]
pub struct File<'a> {
    pub disc: &'a [u8],
    pub s: u32,
    pub entry: FileEntry<'a>,
    pub ghost filed: { Filed disc.now s entry.icb.bytes.now },
}

impl<'a> File<'a> {
    ghost use Rattle.vat_read.specs.Content.{content};

    // The file of the VAT ICB at logical block `k`.
    fn at(disc: &'a [u8], marks: &[u8], s: u32, k: LogicalAddress) -> Self
        requires lent { Lent disc.now marks.now s k.0 }
        requires k_in_bounds { s + k.0 < length marks.now }
        requires k_value { vat_icb (disc_of disc.now marks.now) s k.0 ≡ true }
        ensures file { content result ≡ vat_file (disc_of disc.now marks.now) s k.0 }
        ensures long { 36 ≤ length (content result) }
    {
        let from = SECTOR * address::sector_of(s, k).0 as usize;
        let icb = Icb {
            bytes: &disc[from..from + SECTOR],
        };
        File {
            disc,
            s,
            entry: FileEntry { icb },
        }
    }

    // F, the bytes of the file.
    #[tactic(auto, using(crate::proofs::Bytes::length_file))]
    fn len(&self) -> u64
        ensures { result ≡ length (content self.now) }
    {
        self.entry.icb.file_length()
    }

    // The bytes that stand together on the disc from byte `o` on: to the end of its extent.
    fn extent_from(&self, o: u64) -> &'a [u8]
        requires o_bound { o < length (content self.now) }
        requires by_extents { form self.now.entry.icb.bytes.now ≢ 3 }
        ensures { Standing (content self.now) o result.now }
    {
        let extents = self.entry.extents();
        let mut left = o;
        for extent in extents {
            let size = u64::from(extent.size);
            if left < size {
                let sector = address::sector_of(self.s, extent.block).0 as usize;
                let from = SECTOR * sector + left as usize;
                let to = from + (size - left) as usize;
                return &self.disc[from..to];
            }
            left -= size;
        }
        unreachable!()
    }

    // The bytes that stand together from byte `o` on: to the end of the file, or of its extent.
    fn bytes_from(&self, o: u64) -> &'a [u8]
        requires { o < length (content self.now) }
        ensures { Standing (content self.now) o result.now }
    {
        match self.entry.form() {
            Form::Embedded => &self.entry.allocation()[o as usize..],
            Form::ShortAds => self.extent_from(o),
        }
    }

    // Byte `o` of the file.
    fn byte(&self, o: u64) -> u8
        requires { o < length (content self.now) }
        ensures { result ≡ get_or (content self.now) o 0 }
    {
        self.bytes_from(o)[0]
    }

    // The bytes of the words from word `v` on that stand together, up to word `n` at most. An extent does not part a
    // word.
    fn words(&self, v: u64, n: u64) -> &'a [u8]
        requires { (v < n) × (4 * n ≤ length (content self.now)) }
        ensures { Together (content self.now) v n result.now }
    {
        let run = self.bytes_from(ENTRY * v);
        let wanted = (ENTRY * (n - v)) as usize;
        &run[..run.len().min(wanted)]
    }

    // ---- the table in the file

    // Whether the regid of a VAT stands at `from`. It can be split over two extents.
    fn has_name(&self, from: u64) -> bool
        requires { from + 36 ≡ length (content self.now) }
        ensures { result ≡ has_regid (content self.now) from vat_name }
    {
        let regid = VAT_REGID;
        for i in 0..SUFFIX_AT {
            if self.byte(from + i as u64) != regid[i] {
                return false;
            }
        }
        true
    }

    // Whether the words from word `from` to before word `n` are all below `k`, or none.
    fn words_below(&self, k: LogicalAddress, from: u64, n: u64) -> bool
        requires { (from ≤ n) × (4 * n ≤ length (content self.now)) }
        ensures { result ≡ all_below k.0 (words (content self.now) (4 * from) (n - from)) }
    {
        let mut v = from;
        // The new form is no plainer: a step is as long as the words that stand together, and counts no index.
        while v < n {
            let run = self.words(v, n);
            if !words_fit(run, k) {
                return false;
            }
            v += run.len() as u64 / ENTRY;
        }
        true
    }

    // Whether the file is a VAT's, for an ICB at logical block `k`.
    pub fn table_fits(&self, k: LogicalAddress) -> bool
        ensures { result ≡ table_fits k.0 (content self.now) }
    {
        let bytes = self.len();
        if bytes < TAIL {
            return false;
        }
        let tail = bytes - TAIL;
        if tail % ENTRY != 0 {
            return false;
        }
        let last = bytes / ENTRY;
        self.has_name(tail)
            && self.words_below(k, last - 1, last)
            && self.words_below(k, 0, tail / ENTRY)
    }

    // N, by the length of the file.
    #[tactic(auto, unfolding(model::specs::Vat::count_of))]
    fn count(&self) -> u64
        requires { 36 ≤ length (content self.now) }
        ensures { result ≡ count_of (content self.now) }
    {
        (self.len() - TAIL) / ENTRY
    }

    // Fills a table with the first `n` entries.
    fn put_entries(&self, n: usize, table: &mut [u32])
        requires { (4 * n ≤ length (content self.now)) × (n ≤ length table.old) }
        ensures { table.new ≡ filled_from (words (content self.now) 0 n) table.old }
    {
        let mut v: usize = 0;
        // The new form is no plainer: a step is as long as the words that stand together, and counts no index.
        while v < n {
            let run = self.words(v as u64, n as u64);
            put_words(run, table, v);
            v += run.len() / WORD;
        }
    }
}

// ---- what the layers above call

// Whether the bytes of a block would pass as a VAT ICB at logical block `k`, on the disc or not.
pub fn passes(disc: &[u8], marks: &[u8], s: u32, k: LogicalAddress, icb: &[u8]) -> bool
    requires lent { Lent disc.now marks.now s k.0 }
    requires icb_len { length icb.now ≡ 2048 }
    ensures { result ≡ passesAt (disc_of disc.now marks.now) s k.0 icb.now }
{
    let icb = Icb { bytes: icb };
    if !icb.tag_fits(k) {
        return false;
    }
    let Some(entry) = icb.entry() else {
        return false;
    };
    entry.allocation_fits(marks, s, k) && File { disc, s, entry }.table_fits(k)
}

// N, the number of entries of the VAT ICB at logical block `k`. It can exceed any table.
pub fn entry_count(disc: &[u8], marks: &[u8], s: u32, k: LogicalAddress) -> u64
    requires lent { Lent disc.now marks.now s k.0 }
    requires k_in_bounds { s + k.0 < length marks.now }
    requires k_value { vat_icb (disc_of disc.now marks.now) s k.0 ≡ true }
    ensures { result ≡ count_of (vat_file (disc_of disc.now marks.now) s k.0) }
{
    File::at(disc, marks, s, k).count()
}

// Fills the lent table with the entries of the VAT ICB at logical block `k`, from its start; places beyond are kept.
#[tactic(auto, unfolding(model::specs::Vat::entries_of, model::specs::Vat::count_of))]
pub fn fill(disc: &[u8], marks: &[u8], s: u32, k: LogicalAddress, table: &mut [u32])
    requires lent { Lent disc.now marks.now s k.0 }
    requires k_in_bounds { s + k.0 < length marks.now }
    requires k_value { vat_icb (disc_of disc.now marks.now) s k.0 ≡ true }
    requires k_bound { (count_of (vat_file (disc_of disc.now marks.now) s k.0) ≤ 4096) × (4096 ≤ length table.old) }
    ensures { table.new ≡ filled_from (entries_of (vat_file (disc_of disc.now marks.now) s k.0)) table.old }
{
    let file = File::at(disc, marks, s, k);
    file.put_entries(file.count() as usize, table);
}
