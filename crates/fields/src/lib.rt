// Fields of a structure on disc, in lent bytes: little-endian numbers of 2, 4 and 8 bytes, read and written, and regids
// (document 01, first paragraph and "The disc and its addresses"); bytes compared.
// The layers above count on the equations, and on the laws that what is written reads back.
// All functions here are inside the layers: each requires that its field lies in the lent bytes.
#![tactic(auto)]

ghost use Rattle.std.specs.Prelude.{◌≡◌, ℕ, ◌+◌, ◌≤◌, ◌<◌, ◌^◌, length, take};
ghost use Rattle.fields.specs.Bytes.{part, splice, same};
ghost use Rattle.fields.specs.Number.{value, digits, field};
ghost use Rattle.fields.specs.Back.{value-digits};

// Where the suffix of a regid starts, behind its flags and its identifier.
pub const SUFFIX_AT: usize = 24;

// A number of a structure on disc, with its lowest byte first.
pub trait Number: Copy {
    // How many bytes it has, and which number it is.
    ghost width: { ℕ };

    ghost number: { Self → ℕ };

    // The number at `at`.
    fn read(s: &[u8], at: usize) -> Self
        requires { at + width ≤ length s.now }
        ensures { number result ≡ field s.now at width };

    // Writes the number at `at`.
    fn write(self, s: &mut [u8], at: usize)
        requires { at + width ≤ length s.old }
        ensures { s.new ≡ splice s.old at (digits width (number self)) };

    // What its bytes say is the number again.
    ghost reads_back: { (n : Self) → number n < 256 ^ width → value (digits width (number n)) ≡ number n };
}

impl Number for u16 {
    ghost width = { 2 };

    ghost number = { λ n. n };

    ghost reads_back = { value-digits 2 };

    fn read(s: &[u8], at: usize) -> u16
        requires { at + 2 ≤ length s.now }
        ensures { result ≡ field s.now at 2 }
    {
        let mut bytes = [0; 2];
        bytes.copy_from_slice(&s[at..at + 2]);
        u16::from_le_bytes(bytes)
    }

    fn write(self, s: &mut [u8], at: usize)
        requires { at + 2 ≤ length s.old }
        ensures { s.new ≡ splice s.old at (digits 2 self) }
    {
        s[at..at + 2].copy_from_slice(&self.to_le_bytes());
    }
}

impl Number for u32 {
    ghost width = { 4 };

    ghost number = { λ n. n };

    ghost reads_back = { value-digits 4 };

    fn read(s: &[u8], at: usize) -> u32
        requires { at + 4 ≤ length s.now }
        ensures { result ≡ field s.now at 4 }
    {
        let mut bytes = [0; 4];
        bytes.copy_from_slice(&s[at..at + 4]);
        u32::from_le_bytes(bytes)
    }

    fn write(self, s: &mut [u8], at: usize)
        requires { at + 4 ≤ length s.old }
        ensures { s.new ≡ splice s.old at (digits 4 self) }
    {
        s[at..at + 4].copy_from_slice(&self.to_le_bytes());
    }
}

impl Number for u64 {
    ghost width = { 8 };

    ghost number = { λ n. n };

    ghost reads_back = { value-digits 8 };

    fn read(s: &[u8], at: usize) -> u64
        requires { at + 8 ≤ length s.now }
        ensures { result ≡ field s.now at 8 }
    {
        let mut bytes = [0; 8];
        bytes.copy_from_slice(&s[at..at + 8]);
        u64::from_le_bytes(bytes)
    }

    fn write(self, s: &mut [u8], at: usize)
        requires { at + 8 ≤ length s.old }
        ensures { s.new ≡ splice s.old at (digits 8 self) }
    {
        s[at..at + 8].copy_from_slice(&self.to_le_bytes());
    }
}

// Whether the regid at `at` has the flags and the identifier of this one; no suffix is looked at. It looks at each byte of
// them, with no early way out: `==` of the two slices takes a third longer.
pub fn has_regid(s: &[u8], at: usize, regid: &[u8]) -> bool
    requires at_in_bounds { at + 32 ≤ length s.now }
    requires regid_len { length regid.now ≡ 32 }
    ensures { result ≡ same (part s.now at 24) (take 24 regid.now) }
{
    let mut alike = true;
    for i in 0..SUFFIX_AT {
        alike &= s[at + i] == regid[i];
    }
    alike
}

// Whether two runs of bytes are the same, lengths and all.
pub fn same_bytes(a: &[u8], b: &[u8]) -> bool
    ensures { result ≡ same a.now b.now }
{
    a == b
}
