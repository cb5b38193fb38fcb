// Fields of a structure on disc, written into lent bytes: rows of numbers of 4 bytes, regids
// and zeros (document 01, first paragraph and "The disc and its addresses").
// The layers above count on what was written reading back, and on bytes elsewhere being kept.
// All functions here are inside the layers: each requires that its field lies in the lent bytes.
#![tactic(auto)]

ghost use Rattle.std.specs.Prelude.{◌≡◌, ◌+◌, ◌*◌, ◌≤◌, length, replicate};
ghost use Rattle.fields.specs.Bytes.{splice};
ghost use Rattle.fields.specs.Number.{quads};

use fields::Number;

// The length of a regid, and of a number in a row.
const REGID_LENGTH: usize = 32;

const NUMBER: usize = 4;

// Writes numbers of 4 bytes in a row, from `at` on.
pub fn write_numbers(s: &mut [u8], at: usize, numbers: &[u32])
    requires { at + 4 * length numbers.now ≤ length s.old }
    ensures { s.new ≡ splice s.old at (quads numbers.now) }
{
    for (i, n) in numbers.iter().enumerate() {
        n.write(s, at + NUMBER * i);
    }
}

// Writes a regid at `at`.
pub fn write_regid(s: &mut [u8], at: usize, regid: &[u8])
    requires at_in_bounds { at + 32 ≤ length s.old }
    requires regid_len { length regid.now ≡ 32 }
    ensures { s.new ≡ splice s.old at regid.now }
{
    s[at..at + REGID_LENGTH].copy_from_slice(regid);
}

// Sets every byte to 0.
pub fn clear(s: &mut [u8])
    ensures { s.new ≡ replicate (length s.old) 0 }
{
    s.fill(0);
}
