// The CRC of ECMA-167, 7.2.6: polynomial 0x1021, high bit first; in a tag it starts at 0. Each by the three ways
// to it: as it is used, byte by byte, word by word. Published values; bytes of each length up to 9, and of those
// about 16, from where on words are carried; parts of a whole. Then the word's step.
use say::Out;
use std::io;
use std::io::Write;

fn crc(out: &mut Out, name: &str, bytes: &[u8], start: u16) -> io::Result<()> {
    let used = tag::crc(bytes, start);
    let by_bytes = tag::crc_by_bytes(bytes, start);
    let by_words = tag::crc_by_words(bytes, start);
    writeln!(out, "crc {name}: {used:04x} {by_bytes:04x} {by_words:04x}")
}

fn word(out: &mut Out, name: &str, crc: u16, a: u8, b: u8, c: u8, d: u8) -> io::Result<()> {
    writeln!(
        out,
        "crc word {name}: {:04x}",
        tag::crc_word(crc, a, b, c, d)
    )
}

fn published(out: &mut Out) -> io::Result<()> {
    crc(out, "123456789", b"123456789", 0)?;
    crc(out, "123456789 from 0xffff", b"123456789", 0xffff)?;
    crc(out, "123456789 from 0x1d0f", b"123456789", 0x1d0f)?;
    crc(out, "70 6a 77", b"\x70\x6a\x77", 0)?;
    crc(out, "of no bytes", b"", 0)
}

fn digits(out: &mut Out) -> io::Result<()> {
    crc(out, "of no bytes from 0x1d0f", b"", 0x1d0f)?;
    crc(out, "1 from 0x1d0f", b"1", 0x1d0f)?;
    crc(out, "12 from 0x1d0f", b"12", 0x1d0f)?;
    crc(out, "123 from 0x1d0f", b"123", 0x1d0f)?;
    crc(out, "1234 from 0x1d0f", b"1234", 0x1d0f)?;
    crc(out, "12345 from 0x1d0f", b"12345", 0x1d0f)?;
    crc(out, "123456 from 0x1d0f", b"123456", 0x1d0f)?;
    crc(out, "1234567 from 0x1d0f", b"1234567", 0x1d0f)?;
    crc(out, "12345678 from 0x1d0f", b"12345678", 0x1d0f)
}

fn high_bytes(out: &mut Out) -> io::Result<()> {
    crc(out, "of no bytes from 0xffff", b"", 0xffff)?;
    crc(out, "fe from 0xffff", b"\xfe", 0xffff)?;
    crc(out, "fe dc from 0xffff", b"\xfe\xdc", 0xffff)?;
    crc(out, "fe dc ba from 0xffff", b"\xfe\xdc\xba", 0xffff)?;
    crc(out, "fe dc ba 98 from 0xffff", b"\xfe\xdc\xba\x98", 0xffff)?;
    crc(
        out,
        "fe dc ba 98 76 from 0xffff",
        b"\xfe\xdc\xba\x98\x76",
        0xffff,
    )?;
    crc(
        out,
        "fe dc ba 98 76 54 from 0xffff",
        b"\xfe\xdc\xba\x98\x76\x54",
        0xffff,
    )?;
    crc(
        out,
        "fe dc ba 98 76 54 32 from 0xffff",
        b"\xfe\xdc\xba\x98\x76\x54\x32",
        0xffff,
    )?;
    crc(
        out,
        "fe dc ba 98 76 54 32 10 from 0xffff",
        b"\xfe\xdc\xba\x98\x76\x54\x32\x10",
        0xffff,
    )?;
    crc(
        out,
        "fe dc ba 98 76 54 32 10 80 from 0xffff",
        b"\xfe\xdc\xba\x98\x76\x54\x32\x10\x80",
        0xffff,
    )
}

fn about_16(out: &mut Out) -> io::Result<()> {
    crc(out, "a to o from 0xa55a", b"abcdefghijklmno", 0xa55a)?;
    crc(out, "a to p from 0xa55a", b"abcdefghijklmnop", 0xa55a)?;
    crc(out, "a to q from 0xa55a", b"abcdefghijklmnopq", 0xa55a)?;
    crc(out, "a to r from 0xa55a", b"abcdefghijklmnopqr", 0xa55a)?;
    crc(out, "a to s from 0xa55a", b"abcdefghijklmnopqrs", 0xa55a)?;
    crc(out, "a to t from 0xa55a", b"abcdefghijklmnopqrst", 0xa55a)?;
    crc(out, "a to u from 0xa55a", b"abcdefghijklmnopqrstu", 0xa55a)?;
    crc(
        out,
        "a to z from 0xa55a",
        b"abcdefghijklmnopqrstuvwxyz",
        0xa55a,
    )?;
    crc(
        out,
        "a to z, 1 to 9 from 0xa55a",
        b"abcdefghijklmnopqrstuvwxyz123456789",
        0xa55a,
    )
}

fn parts(out: &mut Out) -> io::Result<()> {
    crc(out, "6789 after 12345", b"6789", tag::crc(b"12345", 0))?;
    crc(
        out,
        "1 to 9 after a to z from 0xa55a",
        b"123456789",
        tag::crc(b"abcdefghijklmnopqrstuvwxyz", 0xa55a),
    )?;
    crc(
        out,
        "b to z, 1 to 9 after a from 0xa55a",
        b"bcdefghijklmnopqrstuvwxyz123456789",
        tag::crc(b"a", 0xa55a),
    )
}

fn words(out: &mut Out) -> io::Result<()> {
    word(out, "1234 from 0", 0, 49, 50, 51, 52)?;
    word(
        out,
        "5678 after 1234",
        tag::crc_word(0, 49, 50, 51, 52),
        53,
        54,
        55,
        56,
    )?;
    word(out, "1234 from 0x1d0f", 0x1d0f, 49, 50, 51, 52)?;
    word(
        out,
        "fe dc ba 98 from 0xffff",
        0xffff,
        0xfe,
        0xdc,
        0xba,
        0x98,
    )?;
    word(
        out,
        "ff ff ff ff from 0xffff",
        0xffff,
        0xff,
        0xff,
        0xff,
        0xff,
    )?;
    word(out, "00 00 00 00 from 0", 0, 0, 0, 0, 0)
}

// One bit alone: of each byte, and of the CRC.
fn single_bits(out: &mut Out) -> io::Result<()> {
    word(out, "00 00 00 01 from 0", 0, 0, 0, 0, 1)?;
    word(out, "00 00 01 00 from 0", 0, 0, 0, 1, 0)?;
    word(out, "00 01 00 00 from 0", 0, 0, 1, 0, 0)?;
    word(out, "01 00 00 00 from 0", 0, 1, 0, 0, 0)?;
    word(out, "80 00 00 00 from 0", 0, 0x80, 0, 0, 0)?;
    word(out, "00 00 00 00 from 1", 1, 0, 0, 0, 0)?;
    word(out, "00 00 00 00 from 0x8000", 0x8000, 0, 0, 0, 0)
}

pub fn run(out: &mut Out) -> io::Result<()> {
    published(out)?;
    digits(out)?;
    high_bytes(out)?;
    about_16(out)?;
    parts(out)?;
    words(out)?;
    single_bits(out)
}
