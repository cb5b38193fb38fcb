// The descriptor tag of ECMA-167: its checksum and its CRC, as 01, "The VAT and its ICB", gives them.
// The layers above may count on both as specs/ defines them: the checksum of any tag, the CRC of any bytes from any start;
// and on a tag being tested and renewed alike, whatever it is the tag of.
// The CRC takes a word of four bytes at a time, and a tail of up to three by the byte (02, slip 3).
#![tactic(auto)]

ghost use Rattle.std.specs.Prelude.{◌≡◌, ◌+◌, ◌*◌, ◌%◌, ◌<◌, ◌≤◌, length, bit_xor};
ghost use Rattle.tag.specs.Checksum.{total, checksum_of};
ghost use Rattle.tag.specs.Crc.{byte_step, crc_from};
ghost use Rattle.fields.specs.Number.{field};
ghost use Rattle.tag.specs.Sound.{sound, renewed};
ghost use Rattle.tag.specs.Word.{word_of, word_at, word_step, carried};

use fields::Number;

// The bytes of a tag, and where among them its fields stand.
pub const TAG_BYTES: usize = 16;

pub const IDENTIFIER_AT: usize = 0;

pub const VERSION_AT: usize = 2;

pub const CHECKSUM_AT: usize = 4;

pub const RESERVED_AT: usize = 5;

pub const CRC_AT: usize = 8;

pub const CRC_LENGTH_AT: usize = 10;

pub const LOCATION_AT: usize = 12;

// The sum of some bytes, modulo 256.
fn sum(part: &[u8]) -> u8
    ensures { result ≡ total part.now % 256 }
{
    part.iter().fold(0u8, |sum, b| sum.wrapping_add(*b))
}

// The checksum of a tag: the sum of its bytes but that of the checksum itself.
// It is called inside the layers, on sectors that hold a whole tag: hence the requires.
pub fn checksum(tag: &[u8]) -> u8
    requires { 16 ≤ length tag.now }
    ensures { result ≡ checksum_of tag.now }
{
    sum(&tag[..CHECKSUM_AT]).wrapping_add(sum(&tag[CHECKSUM_AT + 1..TAG_BYTES]))
}

// The CRC of one byte alone, from 0: the byte xored with its own high half, once for each term of the polynomial.
fn spread(x: u8) -> u16
    ensures { result ≡ byte_step 0 x }
{
    let y = u16::from(x ^ (x / 16));
    ((y % 16) * 4096) ^ (y * 32) ^ y
}

// A CRC with one byte more.
fn crc_byte(crc: u16, byte: u8) -> u16
    ensures { result ≡ byte_step crc byte }
{
    let high = (crc / 256) as u8;
    ((crc % 256) * 256) ^ spread(high ^ byte)
}

// The CRC of some bytes, byte by byte. It starts at 0, or at the CRC of the bytes before them.
pub fn crc_by_bytes(bytes: &[u8], start: u16) -> u16
    ensures { result ≡ crc_from start bytes.now }
{
    bytes.iter().fold(start, |crc, b| crc_byte(crc, *b))
}

// The CRC of one word alone, from 0: its quotient by the polynomial, then the quotient's product with it.
fn fold(t: u32) -> u16
    ensures { result ≡ word_step 0 t }
{
    let u = t ^ (t / 16) ^ (t / 2048) ^ (t / 65536);
    let v = u ^ (u / 256) ^ (u / 4194304);
    let q = (v ^ (v / 65536)) % 65536;
    ((q ^ (q * 32) ^ (q * 4096)) % 65536) as u16
}

// The word's step: from any CRC and four bytes, what four byte steps give.
pub fn crc_word(crc: u16, a: u8, b: u8, c: u8, d: u8) -> u16
    ensures { result ≡ byte_step (byte_step (byte_step (byte_step crc a) b) c) d }
{
    fold((u32::from(crc) * 65536) ^ u32::from_be_bytes([a, b, c, d]))
}

// The CRC of some bytes, each word of four by the word's step, and a tail of up to three by the byte.
pub fn crc_by_words(bytes: &[u8], start: u16) -> u16
    ensures { result ≡ crc_from start bytes.now }
{
    let words = bytes.chunks_exact(4);
    let tail = words.remainder();
    let mut so_far = start;
    for w in words {
        so_far = crc_word(so_far, w[0], w[1], w[2], w[3]);
    }
    crc_by_bytes(tail, so_far)
}

// The word of four bytes from a place on, the first the highest, xored with a mask.
fn masked(bytes: &[u8], at: usize, mask: u32) -> u32
    requires { at + 4 ≤ length bytes.now }
    ensures { result ≡ bit_xor mask (word_at bytes.now at) }
{
    mask ^ u32::from_be_bytes([bytes[at], bytes[at + 1], bytes[at + 2], bytes[at + 3]])
}

// The word's step, of four bytes held as a word.
fn step(crc: u16, w: u32) -> u16
    ensures { result ≡ word_step crc w }
{
    let [a, b, c, d] = w.to_be_bytes();
    crc_word(crc, a, b, c, d)
}

// The CRC of the bytes from a place on, with the masks a, b, c and d of the four words there: these, then the bytes left.
fn crc_masked(bytes: &[u8], at: usize, a: u32, b: u32, c: u32, d: u32) -> u16
    requires { at + 16 ≤ length bytes.now }
    ensures { result ≡ carried bytes.now at a b c d }
{
    let first = step(0, masked(bytes, at, a));
    let second = step(first, masked(bytes, at + 4, b));
    let third = step(second, masked(bytes, at + 8, c));
    let fourth = step(third, masked(bytes, at + 12, d));
    crc_by_bytes(&bytes[at + 16..], fourth)
}

// The CRC of 16 bytes and more.
// x^128 + x^96 + x^40 + 1 is a multiple of the polynomial (its eighth power), so a word may be taken off the bytes
// and xored into those 4, 11 and 16 bytes further on: a, b, c and d are the masks of the next four words.
fn crc_long(bytes: &[u8], start: u16) -> u16
    requires { 16 ≤ length bytes.now }
    ensures { result ≡ crc_from start bytes.now }
{
    let mut a = u32::from(start) * 65536;
    let (mut b, mut c, mut d) = (0, 0, 0);
    let taken = (bytes.len() - 16) / 4;
    for i in 0..taken {
        let t = masked(bytes, 4 * i, a);
        a = b ^ t;
        b = c ^ (t / 16777216);
        c = d ^ ((t % 16777216) * 256);
        d = t;
    }
    crc_masked(bytes, 4 * taken, a, b, c, d)
}

// The CRC of some bytes, by words, and a tail of up to three by the byte. It starts at 0, or at the CRC of the bytes before them.
pub fn crc(bytes: &[u8], start: u16) -> u16
    ensures { result ≡ crc_from start bytes.now }
{
    if bytes.len() < 16 {
        crc_by_words(bytes, start)
    } else {
        crc_long(bytes, start)
    }
}

// ---- a tag and the bytes behind it

// Where the bytes end that the CRC covers: it runs from 16, over as many as the tag says.
fn end_of(b: &[u8]) -> usize
    requires { 16 ≤ length b.now }
    ensures { result ≡ 16 + field b.now 10 2 }
{
    TAG_BYTES + usize::from(u16::read(b, CRC_LENGTH_AT))
}

// Whether the tag's checksum and CRC are right. It is called inside the layers, which have tested that the CRC ends in the lent bytes.
pub fn is_sound(b: &[u8]) -> bool
    requires { 16 + field b.now 10 2 ≤ length b.now }
    ensures { result ≡ sound b.now }
{
    b[CHECKSUM_AT] == checksum(b) && u16::read(b, CRC_AT) == crc(&b[TAG_BYTES..end_of(b)], 0)
}

// Renews the tag's CRC, over the length that it says, and then its checksum. It is called inside the layers, as is_sound.
pub fn renew(b: &mut [u8])
    requires { 16 + field b.old 10 2 ≤ length b.old }
    ensures { b.new ≡ renewed b.old }
{
    crc(&b[TAG_BYTES..end_of(b)], 0).write(b, CRC_AT);
    b[CHECKSUM_AT] = checksum(b);
}
