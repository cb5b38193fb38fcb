// Numbers of 2, 4 and 8 bytes, lowest byte first, and regids: written between two bytes, then read.
ghost use Rattle.std.specs.Prelude.{◌≡◌, ◌+◌, ◌<◌, ◌≤◌, length};

use fields::Number;
use say::{Bytes, Out};
use std::io;
use std::io::Write;

// The regids of a VAT and of a sparing table: the newer one, which is written, and the older one.
const VAT: [u8; 32] = *b"\0*UDF Virtual Alloc Tbl\0\0\0\0\0\0\0\0\0";

const SPARING: [u8; 32] = *b"\0*UDF Sparing Table\0\0\0\0\0\0\0\0\0\0\0\0\0";

const OLDER_SPARING: [u8; 32] = *b"\0*OSTA UDF Sparing Table\0\0\0\0\0\0\0\0";

// A number of as many bytes as there is room for between the two.
fn number<N: Number + Into<u64>>(out: &mut Out, name: &str, n: N, room: &mut [u8]) -> io::Result<()>
    requires room_len { length room.old ≡ N.width + 2 }
    requires width { N.width ≤ 8 }
{
    n.write(room, 1);
    let digits = 2 * (room.len() - 2);
    let bits = 4 * digits;
    let back: u64 = N::read(room, 1).into();
    writeln!(out, "{bits} bits {name}: {} {back:0digits$x}", Bytes(room))
}

fn regid(out: &mut Out, name: &str, regid: &[u8; 32]) -> io::Result<()> {
    let mut room = [0xa5; 34];
    fields_written::write_regid(&mut room, 1, regid);
    let has = fields::has_regid(&room, 1, regid);
    writeln!(out, "regid {name}: {} {has}", Bytes(&room))
}

// A regid with one byte set anew: 0 has the flags, 1 to 23 the identifier, 24 to 31 the suffix.
fn changed_regid(out: &mut Out, name: &str, at: usize) -> io::Result<()>
    requires { at < 32 }
{
    let mut room = [0; 32];
    fields_written::write_regid(&mut room, 0, &VAT);
    room[at] = 1;
    writeln!(out, "regid {name}: {}", fields::has_regid(&room, 0, &VAT))
}

pub fn run(out: &mut Out) -> io::Result<()> {
    number(out, "0x1234", 0x1234u16, &mut [0xa5; 4])?;
    number(out, "0x12345678", 0x12345678u32, &mut [0xa5; 6])?;
    number(
        out,
        "0x123456789abcdef0",
        0x123456789abcdef0u64,
        &mut [0xa5; 10],
    )?;
    regid(out, "*UDF Virtual Alloc Tbl", &VAT)?;
    regid(out, "*UDF Sparing Table", &SPARING)?;
    regid(out, "*OSTA UDF Sparing Table", &OLDER_SPARING)?;
    changed_regid(out, "with flags 1", 0)?;
    changed_regid(out, "with another byte 0 of its identifier", 1)?;
    changed_regid(out, "with another byte 22 of its identifier", 23)?;
    changed_regid(out, "with another byte 0 of its suffix", 24)?;
    changed_regid(out, "with another byte 7 of its suffix", 31)
}
