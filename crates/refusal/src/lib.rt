// Why a call is turned down: a name for each line of document 01, section "Why a call is turned
// down", and of document 02, and the line's number. Nothing else in the project writes a refusal's number.
#![tactic(auto)]

ghost use Rattle.std.specs.Prelude.{◌≡◌};
ghost use Rattle.refusal.specs.Number.{number_of};

// A variant for each line, in checking order. That is not the order of the numbers: those of document 02 stand where it
// places them, 31 after 3, 30, 32 and 33 after 12, and 25 directly before 14. Line 18 never occurs (02, slip 1), and no variant has its number.
#[derive(Clone, Copy, PartialEq, Eq)]
pub enum Refusal {
    // Disc bytes are not 2,048 times the marks, sectors exceed the limit or are none, or a mark exceeds 2.
    DiscShape,
    // L is 0, or S + L exceeds the sectors.
    SpanOutside,
    // The lent table has under 4,096 entries, or block, packet or written map bytes have the wrong length.
    LentLength,
    // The space bitmap is malformed, its bits are not L or run past its bytes, or CRC or bytes run past those lent (document 02, slip 10).
    BitmapMalformed,
    // A map is cut short, or of length 0.
    MapCut,
    // The list, read or to be written, is neither kind.
    NeitherKind,
    // Rewritable: S, L or a table sector is not a multiple of 32, a table's packet is off the disc, in the partition or named twice, or spares to be made break the copy rule.
    Misaligned,
    // The call is for the other kind.
    OtherKind,
    // No VAT ICB or counting copy exists.
    NoTable,
    // The found VAT has over 4,096 entries.
    TooManyEntries,
    // Current copies differ in entries.
    CopiesDiffer,
    // The handed record does not go with the disc.
    StaleRecord,
    // The number of a block or a packet is out of range.
    NumberOutside,
    // The block or packet belongs to a spare (document 02, slip 8).
    BelongsToSpare,
    // The wanted run has length 0 or, in taking or giving back, ends past L or is not in the state needed (document 02, slip 10).
    WrongRun,
    // No such run exists (document 02, slip 10).
    NoRun,
    // The entry to be read or freed is unused.
    UnusedEntry,
    // The first sector to be read that is not recorded is blank (document 02, slip 5).
    BlankSector,
    // The first sector to be read that is not recorded is unreadable.
    UnreadableSector,
    // The block would pass as a VAT ICB at NWA.
    PassesAsIcb,
    // The partition has no room left for the call and the commit after it.
    NoRoom,
    // Sparing with one table only.
    OneTable,
    // No entry is free.
    NoSpare,
    // The sequence is 0xffffffff.
    LastSequence,
    // A write-once partition to be made is not blank.
    NotBlank,
}

// The number of a refusal's line.
impl From<Refusal> for u32 {
    ghost from_gives = { λ r n. n ≡ number_of r };

    fn from(why: Refusal) -> u32 {
        match why {
            Refusal::DiscShape => 1,
            Refusal::SpanOutside => 2,
            Refusal::LentLength => 3,
            Refusal::BitmapMalformed => 31,
            Refusal::MapCut => 4,
            Refusal::NeitherKind => 5,
            Refusal::Misaligned => 6,
            Refusal::OtherKind => 7,
            Refusal::NoTable => 8,
            Refusal::TooManyEntries => 9,
            Refusal::CopiesDiffer => 10,
            Refusal::StaleRecord => 11,
            Refusal::NumberOutside => 12,
            Refusal::BelongsToSpare => 30,
            Refusal::WrongRun => 32,
            Refusal::NoRun => 33,
            Refusal::UnusedEntry => 13,
            Refusal::BlankSector => 25,
            Refusal::UnreadableSector => 14,
            Refusal::PassesAsIcb => 15,
            Refusal::NoRoom => 16,
            Refusal::OneTable => 17,
            Refusal::NoSpare => 19,
            Refusal::LastSequence => 20,
            Refusal::NotBlank => 21,
        }
    }
}
