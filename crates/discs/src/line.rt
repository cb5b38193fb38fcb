// A line of the file stdin: a name, of which the first four letters count, and numbers, each behind a blank.
ghost use Rattle.std.specs.Prelude.{◌≤◌, length};

// An unused entry, written as none.
const NONE: u32 = 0xffffffff;

// The most numbers that are read of a line where their number is free.
const MOST: usize = 4;

#[derive(Clone, Copy)]
pub struct Line<'a> {
    pub text: &'a [u8],
}

// A number in decimal digits, modulo 2 to the 32nd power; 0 where there is none. Of another byte than a digit its low
// four bits count.
fn number(word: &[u8]) -> u32 {
    if word.starts_with(b"n") {
        return NONE;
    }
    word.iter().fold(0u32, |value, digit| {
        value.wrapping_mul(10).wrapping_add(u32::from(*digit % 16))
    })
}

impl<'a> Line<'a> {
    // The name's first four letters, with blanks behind a shorter one.
    pub fn name(self) -> [u8; 4] {
        let mut name = [b' '; 4];
        for (letter, byte) in name.iter_mut().zip(self.text) {
            *letter = *byte;
        }
        name
    }

    // Word n, the name being number 0; empty where there is none.
    fn word(self, n: usize) -> &'a [u8]
        ensures { length result.now ≤ length self.entry.text.now }
    {
        self.text
            .split(|byte| *byte == b' ')
            .nth(n)
            .unwrap_or_default()
    }

    // Number n of the line; 0 where there is none.
    pub fn number(self, n: usize) -> u32 {
        number(self.word(n))
    }

    // The same as a length or a place.
    pub fn size(self, n: usize) -> usize {
        self.number(n) as usize
    }

    // The same as a byte.
    pub fn byte(self, n: usize) -> u8 {
        (self.number(n) % 256) as u8
    }

    // The first letter of word n, if there is one.
    pub fn initial(self, n: usize) -> Option<u8> {
        self.word(n).first().copied()
    }

    // The first numbers behind the name.
    pub fn numbers(self) -> [u32; MOST] {
        [
            self.number(1),
            self.number(2),
            self.number(3),
            self.number(4),
        ]
    }

    // How many of these there are. A blank at the line's end has none behind it.
    pub fn count(self) -> usize
        ensures { result ≤ 4 }
    {
        self.text
            .strip_suffix(b" ")
            .unwrap_or(self.text)
            .split(|byte| *byte == b' ')
            .skip(1)
            .take(MOST)
            .count()
    }
}
