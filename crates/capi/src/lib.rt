// The exported C interface: each function calls the entry point of the same name, and its promise says so.
// A slice is a pointer and a length. The record is five numbers: kind (0 write-once, 1 rewritable), N or R,
// NWA or the sequence, the last ICB (0 on a rewritable disc), and how many sectors the opening passed over.
// Every function returns a number: 0 done, the line of a refusal (document 01, "Why a call is turned down"),
// 255 for a call that was cut; those of the CRC return its value, and refuse nothing. No function has a requires.
#![tactic(auto)]

ghost use Rattle.std.specs.Prelude.{◌≡◌};
ghost use Rattle.maps.specs.Kinds.{read_maps, volume_read};
ghost use Rattle.maps_written.specs.Writing.{written_or};
ghost use Rattle.model.specs.Disc.{disc as disc_of};
ghost use Rattle.model.specs.Examine.{setting};
ghost use Rattle.model.specs.Both.{make_verdict, made};
ghost use Rattle.model.specs.Lent.{lent};
ghost use Rattle.refusal.specs.Number.{answer_number};
ghost use Rattle.model.specs.Told.{forecast_number};
ghost use Rattle.tag.specs.Crc.{byte_step, crc_from};
ghost use Rattle.call_numbers.specs.Numbers.{cut_of, record_opened, forecast_after};
ghost use Rattle.call_lists.specs.Lists.{maps_verdict, volume_after, volume_for, lent_verdict, lent_look_up, logical_after};
ghost use Rattle.bitmap_written.specs.Written.{take_verdict, after_taking, give_verdict, after_giving};
ghost use Rattle.call_bitmap.specs.Lent.{lent_count, counted_after, lent_find, found_after};
ghost use Rattle.capi.specs.Calls.{SeenSave, SeenFree, SeenCommit, SeenSaveBlock, SeenSavePacket, SeenSpare, lent_opening, lent_opened_table, lent_reading, lent_read_bytes, lent_fullness, measured_after, lent_forecast};
ghost use Rattle.capi.specs.Run.{SeenRuns, SeenDemand, SeenWait};

use model::DONE;

// ---- both kinds

// Opens the volume: finds the table on the disc, and fills the lent one with it.
#[unsafe(no_mangle)]
pub extern "C" fn tuormik_open(
    disc: &[u8],
    marks: &[u8],
    maps: &[u8],
    s: u32,
    l: u32,
    table: &mut [u32],
    kept: &mut [u32],
) -> u32
    ensures value { result ≡ answer_number (lent_opening (setting maps.now s l)
        (disc_of disc.now marks.now) table.old kept.old) }
    ensures table_after { table.new ≡ lent_opened_table (setting maps.now s l)
        (disc_of disc.now marks.now) table.old kept.old }
    ensures kept_after { kept.new ≡ record_opened (lent_opening (setting maps.now s l)
        (disc_of disc.now marks.now) table.old kept.old) kept.old }
{
    if kept.len() != call_numbers::RECORD {
        return call_numbers::number_of_lengths(disc, marks, maps, s, l);
    }
    let opened = blocks::open(disc, marks, maps, s, l, table);
    call_numbers::keep_opened(kept, opened);
    call_numbers::number_of(&opened)
}

// Reads block number v into the lent bytes.
#[unsafe(no_mangle)]
pub extern "C" fn tuormik_read(
    disc: &[u8],
    marks: &[u8],
    maps: &[u8],
    s: u32,
    l: u32,
    table: &[u32],
    kept: &[u32],
    v: u32,
    out: &mut [u8],
) -> u32
    ensures value { result ≡ answer_number (lent_reading (setting maps.now s l)
        (disc_of disc.now marks.now) table.now kept.now v out.old) }
    ensures out_after { out.new ≡ lent_read_bytes (setting maps.now s l)
        (disc_of disc.now marks.now) table.now kept.now v out.old }
{
    if kept.len() != call_numbers::RECORD {
        return call_numbers::number_of_lengths(disc, marks, maps, s, l);
    }
    let held = call_numbers::read_record(kept);
    let given = blocks::read(disc, marks, maps, s, l, table, held, v, out);
    call_numbers::number_of(&given)
}

// Makes a volume.
#[unsafe(no_mangle)]
pub extern "C" fn tuormik_make(
    disc: &mut [u8],
    marks: &mut [u8],
    maps: &[u8],
    s: u32,
    l: u32,
    spares: &[u32],
) -> u32
    ensures value { result ≡ answer_number (make_verdict (setting maps.now s l) (disc_of disc.old marks.old) spares.now) }
    ensures marks_after { disc_of disc.new marks.new ≡ made (setting maps.now s l)
        (disc_of disc.old marks.old) spares.now }
{
    let verdict = blocks::make(disc, marks, maps, s, l, spares);
    call_numbers::number_of(&verdict)
}

// ---- write-once

// Saves a block as virtual block v, at NWA.
#[unsafe(no_mangle)]
pub extern "C" fn tuormik_save_virtual(
    disc: &mut [u8],
    marks: &mut [u8],
    maps: &[u8],
    s: u32,
    l: u32,
    table: &mut [u32],
    kept: &mut [u32],
    v: u32,
    block: &[u8],
    at: u32,
    effect: u32,
) -> u32
    ensures { SeenSave (lent disc.old marks.old maps.now s l)
        table.old kept.old v block.now (cut_of at effect)
        result (disc_of disc.new marks.new) table.new kept.new }
{
    if kept.len() != call_numbers::RECORD {
        return call_numbers::number_of_lengths(disc, marks, maps, s, l);
    }
    let held = call_numbers::read_record(kept);
    let cut = call_numbers::cut_of(at, effect);
    let reply = blocks::save_virtual(disc, marks, maps, s, l, table, held, v, block, cut);
    call_numbers::keep_record(kept, reply);
    call_numbers::number_of_reply(reply)
}

// Frees virtual block v.
#[unsafe(no_mangle)]
pub extern "C" fn tuormik_free_virtual(
    disc: &[u8],
    marks: &[u8],
    maps: &[u8],
    s: u32,
    l: u32,
    table: &mut [u32],
    kept: &mut [u32],
    v: u32,
) -> u32
    ensures { SeenFree (lent disc.now marks.now maps.now s l)
        table.old kept.old v result table.new kept.new }
{
    if kept.len() != call_numbers::RECORD {
        return call_numbers::number_of_lengths(disc, marks, maps, s, l);
    }
    let held = call_numbers::read_record(kept);
    let reply = blocks::free_virtual(disc, marks, maps, s, l, table, held, v);
    call_numbers::keep_record(kept, reply);
    call_numbers::number_of_reply(reply)
}

// Commits the table.
#[unsafe(no_mangle)]
pub extern "C" fn tuormik_commit(
    disc: &mut [u8],
    marks: &mut [u8],
    maps: &[u8],
    s: u32,
    l: u32,
    table: &[u32],
    kept: &mut [u32],
    at: u32,
    effect: u32,
) -> u32
    ensures { SeenCommit (lent disc.old marks.old maps.now s l)
        table.now kept.old (cut_of at effect) result (disc_of disc.new marks.new) kept.new }
{
    if kept.len() != call_numbers::RECORD {
        return call_numbers::number_of_lengths(disc, marks, maps, s, l);
    }
    let held = call_numbers::read_record(kept);
    let cut = call_numbers::cut_of(at, effect);
    let reply = blocks::commit(disc, marks, maps, s, l, table, held, cut);
    call_numbers::keep_record(kept, reply);
    call_numbers::number_of_reply(reply)
}

// Tells how full the partition is, in per mille.
#[unsafe(no_mangle)]
pub extern "C" fn tuormik_fullness(
    disc: &[u8],
    marks: &[u8],
    maps: &[u8],
    s: u32,
    l: u32,
    table: &[u32],
    kept: &[u32],
    res: &mut [u32],
) -> u32
    ensures value { result ≡ answer_number (lent_fullness (setting maps.now s l)
        (disc_of disc.now marks.now) table.now kept.now res.old) }
    ensures res_after { res.new ≡ measured_after (lent_fullness (setting maps.now s l)
        (disc_of disc.now marks.now) table.now kept.now res.old) res.old }
{
    if kept.len() != call_numbers::RECORD {
        return call_numbers::number_of_lengths(disc, marks, maps, s, l);
    }
    if res.len() != call_lists::ONE {
        return call_numbers::number_of_lengths(disc, marks, maps, s, l);
    }
    let held = call_numbers::read_record(kept);
    match blocks::fullness(disc, marks, maps, s, l, table, held) {
        Ok(n) => {
            res[0] = n;
            DONE
        }
        Err(why) => u32::from(why),
    }
}

// Tells what a list of saves and commits would come to.
#[unsafe(no_mangle)]
pub extern "C" fn tuormik_forecast(
    disc: &[u8],
    marks: &[u8],
    maps: &[u8],
    s: u32,
    l: u32,
    table: &[u32],
    kept: &[u32],
    items: &[u32],
    res: &mut [u32],
) -> u32
    ensures value { result ≡ forecast_number (lent_forecast (setting maps.now s l)
        (disc_of disc.now marks.now) table.now kept.now items.now
        res.old) }
    ensures res_after { res.new ≡ forecast_after (lent_forecast (setting maps.now s l)
        (disc_of disc.now marks.now) table.now kept.now items.now
        res.old) res.old }
{
    if kept.len() != call_numbers::RECORD {
        return call_numbers::number_of_lengths(disc, marks, maps, s, l);
    }
    if res.len() != call_numbers::FORECAST {
        return call_numbers::number_of_lengths(disc, marks, maps, s, l);
    }
    let held = call_numbers::read_record(kept);
    let told = blocks::forecast(disc, marks, maps, s, l, table, held, items);
    call_numbers::tell_forecast(res, told)
}

// ---- rewritable

// Saves a block as logical block b: its packet is rewritten.
#[unsafe(no_mangle)]
pub extern "C" fn tuormik_save_block(
    disc: &mut [u8],
    marks: &mut [u8],
    maps: &[u8],
    s: u32,
    l: u32,
    table: &[u32],
    kept: &mut [u32],
    b: u32,
    block: &[u8],
    at: u32,
    effect: u32,
) -> u32
    ensures { SeenSaveBlock (lent disc.old marks.old maps.now s l)
        table.now kept.old b block.now (cut_of at effect)
        result (disc_of disc.new marks.new) kept.new }
{
    if kept.len() != call_numbers::RECORD {
        return call_numbers::number_of_lengths(disc, marks, maps, s, l);
    }
    let held = call_numbers::read_record(kept);
    let cut = call_numbers::cut_of(at, effect);
    let reply = blocks::save_block(disc, marks, maps, s, l, table, held, b, block, cut);
    call_numbers::keep_record(kept, reply);
    call_numbers::number_of_reply(reply)
}

// Saves the packet that begins at logical block b.
#[unsafe(no_mangle)]
pub extern "C" fn tuormik_save_packet(
    disc: &mut [u8],
    marks: &mut [u8],
    maps: &[u8],
    s: u32,
    l: u32,
    table: &[u32],
    kept: &mut [u32],
    b: u32,
    packet: &[u8],
    at: u32,
    effect: u32,
) -> u32
    ensures { SeenSavePacket (lent disc.old marks.old maps.now s l)
        table.now kept.old b packet.now (cut_of at effect)
        result (disc_of disc.new marks.new) kept.new }
{
    if kept.len() != call_numbers::RECORD {
        return call_numbers::number_of_lengths(disc, marks, maps, s, l);
    }
    let held = call_numbers::read_record(kept);
    let cut = call_numbers::cut_of(at, effect);
    let reply = blocks::save_packet(disc, marks, maps, s, l, table, held, b, packet, cut);
    call_numbers::keep_record(kept, reply);
    call_numbers::number_of_reply(reply)
}

// Spares the packet that begins at logical block b, also one that is spared already: its bytes go to a free spare, and the table to its
// copies.
#[unsafe(no_mangle)]
pub extern "C" fn tuormik_spare_packet(
    disc: &mut [u8],
    marks: &mut [u8],
    maps: &[u8],
    s: u32,
    l: u32,
    table: &mut [u32],
    kept: &mut [u32],
    b: u32,
    packet: &[u8],
    at: u32,
    effect: u32,
) -> u32
    ensures { SeenSpare (lent disc.old marks.old maps.now s l)
        table.old kept.old b packet.now (cut_of at effect)
        result (disc_of disc.new marks.new) table.new kept.new }
{
    if kept.len() != call_numbers::RECORD {
        return call_numbers::number_of_lengths(disc, marks, maps, s, l);
    }
    let held = call_numbers::read_record(kept);
    let cut = call_numbers::cut_of(at, effect);
    let reply = blocks::spare_packet(disc, marks, maps, s, l, table, held, b, packet, cut);
    call_numbers::keep_record(kept, reply);
    call_numbers::number_of_reply(reply)
}

// ---- map lists and VAT files

// Reads a map list.
#[unsafe(no_mangle)]
pub extern "C" fn tuormik_read_maps(maps: &[u8], res: &mut [u32]) -> u32
    ensures value { result ≡ answer_number (maps_verdict maps.now res.old) }
    ensures res_after { res.new ≡ volume_after (maps_verdict maps.now res.old)
        (volume_read (read_maps maps.now)) res.old }
{
    call_lists::read_maps(maps, res)
}

// Writes a map list.
#[unsafe(no_mangle)]
pub extern "C" fn tuormik_write_maps(
    kind: u32,
    partition: u16,
    size: u32,
    tables: &[u32],
    out: &mut [u8],
) -> u32
    ensures value { result ≡ answer_number (lent_verdict kind partition size tables.now out.old) }
    ensures out_after { out.new ≡ written_or (lent_verdict kind partition size tables.now out.old)
        (volume_for kind partition size tables.now) out.old }
{
    call_lists::write_maps(kind, partition, size, tables, out)
}

// Looks up virtual block v in the bytes of a VAT file.
#[unsafe(no_mangle)]
pub extern "C" fn tuormik_look_up(file: &[u8], v: u32, res: &mut [u32]) -> u32
    ensures value { result ≡ answer_number (lent_look_up file.now v res.old) }
    ensures res_after { res.new ≡ logical_after (lent_look_up file.now v res.old) res.old }
{
    call_lists::look_up(file, v, res)
}

// ---- the space bitmap, which is lent without a disc

// Counts the free blocks.
#[unsafe(no_mangle)]
pub extern "C" fn tuormik_bitmap_count(bitmap: &[u8], l: u32, res: &mut [u32]) -> u32
    ensures value { result ≡ answer_number (lent_count bitmap.now l res.old) }
    ensures res_after { res.new ≡ counted_after (lent_count bitmap.now l res.old) res.old }
{
    call_bitmap::count(bitmap, l, res)
}

// Finds the first block of the free run of a wanted length that is nearest to a block.
#[unsafe(no_mangle)]
pub extern "C" fn tuormik_bitmap_find(
    bitmap: &[u8],
    l: u32,
    wanted: u32,
    near: u32,
    res: &mut [u32],
) -> u32
    ensures value { result ≡ answer_number (lent_find bitmap.now l wanted near res.old) }
    ensures res_after { res.new ≡ found_after (lent_find bitmap.now l wanted near res.old) res.old }
{
    call_bitmap::find(bitmap, l, wanted, near, res)
}

// Takes a run of free blocks.
#[unsafe(no_mangle)]
pub extern "C" fn tuormik_bitmap_take(bitmap: &mut [u8], l: u32, first: u32, count: u32) -> u32
    ensures value { result ≡ answer_number (take_verdict bitmap.old l first count) }
    ensures bitmap_after { bitmap.new ≡ after_taking bitmap.old l first count }
{
    let verdict = bitmap_written::take(bitmap, l, first, count);
    call_numbers::number_of(&verdict)
}

// Gives a run of allocated blocks back.
#[unsafe(no_mangle)]
pub extern "C" fn tuormik_bitmap_give_back(bitmap: &mut [u8], l: u32, first: u32, count: u32) -> u32
    ensures value { result ≡ answer_number (give_verdict bitmap.old l first count) }
    ensures bitmap_after { bitmap.new ≡ after_giving bitmap.old l first count }
{
    let verdict = bitmap_written::give_back(bitmap, l, first, count);
    call_numbers::number_of(&verdict)
}

// ---- the CRC of a tag

// The CRC of some bytes, as the tags of a disc have it. It starts at 0, or at the CRC of the bytes before them.
#[unsafe(no_mangle)]
pub extern "C" fn tuormik_crc(bytes: &[u8], start: u16) -> u16
    ensures { result ≡ crc_from start bytes.now }
{
    tag::crc(bytes, start)
}

// The same, byte by byte.
#[unsafe(no_mangle)]
pub extern "C" fn tuormik_crc_by_bytes(bytes: &[u8], start: u16) -> u16
    ensures { result ≡ crc_from start bytes.now }
{
    tag::crc_by_bytes(bytes, start)
}

// The same, each word of four bytes by the word's step.
#[unsafe(no_mangle)]
pub extern "C" fn tuormik_crc_by_words(bytes: &[u8], start: u16) -> u16
    ensures { result ≡ crc_from start bytes.now }
{
    tag::crc_by_words(bytes, start)
}

// The word's step: a CRC with four bytes more.
#[unsafe(no_mangle)]
pub extern "C" fn tuormik_crc_word(crc: u16, a: u8, b: u8, c: u8, d: u8) -> u16
    ensures { result ≡ byte_step (byte_step (byte_step (byte_step crc a) b) c) d }
{
    tag::crc_word(crc, a, b, c, d)
}

// ---- lists of calls

// Opens the disc and carries out the calls that are lent, six numbers each, with their bytes.
#[unsafe(no_mangle)]
pub extern "C" fn tuormik_run(
    disc: &mut [u8],
    marks: &mut [u8],
    maps: &[u8],
    s: u32,
    l: u32,
    table: &mut [u32],
    kept: &mut [u32],
    calls: &[u32],
    bytes: &[u8],
    replies: &mut [u32],
) -> u32
    ensures seen_runs { SeenRuns (lent disc.old marks.old maps.now s l)
        table.old kept.old calls.now bytes.now replies.old
        result (disc_of disc.new marks.new) table.new replies.new kept.new }
    ensures seen_demand { SeenDemand (lent disc.old marks.old maps.now s l)
        table.old kept.old calls.now bytes.now replies.old
        (disc_of disc.new marks.new) table.new }
    ensures seen_wait { SeenWait (lent disc.old marks.old maps.now s l)
        table.old kept.old calls.now bytes.now replies.old }
{
    if kept.len() != call_numbers::RECORD {
        return call_numbers::number_of_lengths(disc, marks, maps, s, l);
    }
    let ran = list_run::run(disc, marks, maps, s, l, table, calls, bytes, replies);
    call_numbers::keep_opened(kept, ran);
    call_numbers::number_of(&ran)
}
