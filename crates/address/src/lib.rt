// Addresses and their translation: document 01, "The disc and its addresses", after 004, section 3.
// Each address has a type of its own, so that translation alone turns one into another.
// The layers above may count on an answer for every argument: the address, or the first refusal that applies.
#![tactic(auto)]

ghost use Rattle.std.specs.Prelude.{◌≡◌, ◌+◌, ◌<◌, ◌^◌};
ghost use Rattle.refusal.specs.Number.{answer_number};
ghost use Rattle.refusal.specs.Tests.{first};
ghost use Rattle.address.specs.Translation.{span_tests, sector_of, up_from, entry_names, logical_of, physical_of, physical_of_mapped, physical_of_media, physical_of_virtual, logical_verdict, physical_verdict, virtual_verdict};

use refusal::Refusal;

// The entry of a virtual address that is unused.
pub const NONE: u32 = 0xffffffff;

// The most sectors that a disc has.
pub const MOST_SECTORS: u64 = 1048576;

// A place in the VAT.
#[derive(Clone, Copy, PartialEq, Eq)]
pub struct VirtualAddress(pub u32);

// A place in the partition.
#[derive(Clone, Copy, PartialEq, Eq)]
pub struct LogicalAddress(pub u32);

// A sector on the disc, as the device is asked for it.
#[derive(Clone, Copy, PartialEq, Eq)]
pub struct PhysicalAddress(pub u32);

// A sector as it appears on the medium, before any mapping by the device.
#[derive(Clone, Copy, PartialEq, Eq)]
pub struct MediaBlockAddress(pub u32);

// The partition: it starts at sector S and has L sectors.
#[derive(Clone, Copy, PartialEq, Eq)]
pub struct Span {
    pub start: u32,
    pub length: u32,
}

// Whether some disc has room for the span.
// A translation is lent no disc, so it tests of line 2 what every disc breaks: L is 0, or S + L exceeds the most sectors.
fn judge_span(span: Span) -> Result<(), Refusal>
    ensures { result ≡ first (span_tests span) }
{
    if span.length == 0 {
        return Err(Refusal::SpanOutside);
    }
    if MOST_SECTORS < span.start as u64 + span.length as u64 {
        return Err(Refusal::SpanOutside);
    }
    Ok(())
}

// The logical address that an entry of a VAT names.
pub fn entry_to_logical(entry: u32) -> Result<LogicalAddress, Refusal>
    ensures { result ≡ entry_names entry }
{
    if entry == NONE {
        return Err(Refusal::UnusedEntry);
    }
    Ok(LogicalAddress(entry))
}

// The logical address of a virtual one; `entries` are the N entries of the VAT.
pub fn virtual_to_logical(entries: &[u32], v: VirtualAddress) -> Result<LogicalAddress, Refusal>
    ensures value { result ≡ logical_of entries.now v }
    ensures result_value { answer_number result ≡ answer_number (logical_verdict entries.now v) }
{
    let i = v.0 as usize;
    if entries.len() <= i {
        return Err(Refusal::NumberOutside); // line 12, before line 13
    }
    entry_to_logical(entries[i])
}

// The physical address of a logical one: S + b.
pub fn logical_to_physical(span: Span, b: LogicalAddress) -> Result<PhysicalAddress, Refusal>
    ensures value { result ≡ physical_of span b }
    ensures result_value { answer_number result ≡ answer_number (physical_verdict span b) }
{
    judge_span(span)?; // line 2, before line 12
    if span.length <= b.0 {
        return Err(Refusal::NumberOutside);
    }
    Ok(PhysicalAddress(span.start + b.0))
}

// The physical address of a media block address: the same sector, as no device maps a lent disc.
pub fn media_to_physical(m: MediaBlockAddress) -> PhysicalAddress
    ensures { result.0 ≡ (physical_of_media m).0 }
{
    PhysicalAddress(m.0)
}

// The physical address that a number of a sparing table names: a mapped start is physical.
pub fn mapped_to_physical(number: u32) -> PhysicalAddress
    ensures { result.0 ≡ (physical_of_mapped number).0 }
{
    PhysicalAddress(number)
}

// The physical address of a logical one inside the layers, where line 2 has been tested and b is a block of the
// partition, or the end of it.
pub fn sector_of(s: u32, b: LogicalAddress) -> PhysicalAddress
    requires { s + b.0 < 2 ^ 32 }
    ensures { result.0 ≡ (sector_of s b).0 }
{
    PhysicalAddress(s + b.0)
}

// The sector i above a sector: of a run, or of a packet. Inside the layers: the run has been found to be the disc's.
pub fn up_from(first: PhysicalAddress, i: u32) -> PhysicalAddress
    requires { first.0 + i < 2 ^ 32 }
    ensures { result.0 ≡ (up_from first i).0 }
{
    PhysicalAddress(first.0 + i)
}

// The physical address of a virtual one: through the VAT, then through the partition.
// The span is judged before the entry is looked up, as line 2 stands before lines 12 and 13.
pub fn virtual_to_physical(
    span: Span,
    entries: &[u32],
    v: VirtualAddress,
) -> Result<PhysicalAddress, Refusal>
    ensures value { result ≡ physical_of_virtual span entries.now v }
    ensures result_value { answer_number result ≡ answer_number (virtual_verdict span entries.now v) }
{
    judge_span(span)?; // line 2, before lines 12 and 13
    let b = virtual_to_logical(entries, v)?;
    logical_to_physical(span, b)
}
