// The functions for callers in C. Every answer is one 64-bit number, returned in a register; include/lanyardrove.h declares them, in this order.
#![tactic(auto)]

ghost use Rattle.std.specs.Prelude.{cond, not, ◌≡◌, ◌+◌, ◌<◌, ◌^◌, min, eqb, length};
ghost use Rattle.lanyardrove.specs.Replies.{translate_reply, translate_bytes, compare_reply, rest_reply, reply, told, packed, step_reply, check_reply, repair_reply, RepairReplies, AfreshReplies, build_reply, ask_reply, ReplaceReplies, draw_reply, view_reply, decode_reply, decode_fields, encode_reply, encode_bytes, fed_packed, closed_packed};
ghost use Rattle.rdp_words.specs.Grounds.{answered};
ghost use Rattle.rdp_words.specs.Lengths.{command_words};
ghost use Rattle.rdp_hazards.specs.Hazards.{code_in};
ghost use Rattle.rdp_repair.specs.Repair as repair;
ghost use Rattle.rdp_index.specs.Index.{build_out};
ghost use Rattle.rdp_draw.specs.Draw.{drawn, memories};
ghost use Rattle.rdp_view.specs.View.{framebuffer_at, view_out};
ghost use Rattle.rdp_compare.specs.Entries.{entries_after};

use rdp_compare::RestPlace;
use rdp_hazards::Sync;
use rdp_repair::Repaired;
use rdp_stream::Stream;
use rdp_words::{Answer, Ground, Refusal};

// An answer as one number: the number of the refusal in bits 63:56, a third number in bits 55:32, the place in bits 31:0.
fn pack(number: u32, third: u32, place: u32) -> u64
    requires { (number < 2 ^ 8) × (third < 2 ^ 24) }
    ensures { result ≡ packed (reply number third place) }
{
    number as u64 * 0x0100_0000_0000_0000 + third as u64 * 0x1_0000_0000 + place as u64
}

// An answer with a third number as one number.
fn pack_answer(answer: Answer, third: u32) -> u64
    requires { third < 2 ^ 24 }
    ensures { result ≡ packed (told third (answered answer)) }
{
    match answer {
        Ok(count) => pack(0, third, count),
        Err(refusal) => pack(u32::from(refusal.ground), third, refusal.place),
    }
}

// A count that has to fit: at most so many, which stands for that and more.
fn capped(most: u32, count: usize) -> u32
    ensures { result ≡ min count most }
{
    count.min(most as usize) as u32
}

// The most that a third number can be.
const MOST_THIRD: u32 = 0xFF_FFFF;

// The version of this library: major, minor and patch number, eight bits each. The header has the same number.
#[unsafe(no_mangle)]
pub extern "C" fn lanyardrove_version() -> u32
    ensures { result ≡ 0x070100 }
{
    0x070100
}

// The check of a list: the first of refusals 1 to 9 and 19, or 0 and the words of the list. The third number is the cause.
#[unsafe(no_mangle)]
pub extern "C" fn lanyardrove_check(list: &[u8]) -> u64
    ensures { result ≡ packed (check_reply list.now) }
{
    match rdp_check::check(list) {
        Ok(accepted) => pack(0, capped(MOST_THIRD, list.len() / 8), accepted.words),
        Err(refused) => {
            let number = u32::from(refused.ground);
            pack(number, capped(MOST_THIRD, refused.cause), refused.place)
        }
    }
}

// The cycles that a record has waited as a third number: none where 28 refuses the record.
fn third_of_record(answer: Answer, waited: u32) -> u32
    ensures { result ≡ cond (eqb (answered answer).number 28) 0 waited }
{
    match answer {
        Err(
            Refusal {
                ground: Ground::Damaged,
                ..
            },
        ) => 0,
        _ => waited,
    }
}

// A record after a call, and the call's answer as one number.
#[derive(Clone, Copy)]
pub struct Packed {
    pub after: Stream,
    pub answer: u64,
}

// A portion fed to a record by value, since of a lent record nothing is known of the fields that are not read.
fn feed_packed(before: Stream, portion: &[u8]) -> Packed
    ensures { result ≡ fed_packed before portion.now }
{
    let fed = rdp_stream::feed_value(before, portion);
    let after = fed.after;
    let third = third_of_record(fed.answer, after.waited);
    let answer = pack_answer(fed.answer, third);
    Packed { after, answer }
}

// The closing of a record by value. It differs from `feed_packed` in the call alone: a function that took the call as a closure would be no shorter.
fn close_packed(before: Stream) -> Packed
    ensures { result ≡ closed_packed before }
{
    let closed = rdp_stream::close_value(before);
    let left = closed.after;
    let cycles = third_of_record(closed.answer, left.waited);
    let answer = pack_answer(closed.answer, cycles);
    Packed {
        after: left,
        answer,
    }
}

// Takes a portion of a list into the caller's record, where it stands: 0 and the words of the commands accepted so far, or the refusal that the record
// remembers from then on, 1, or 4 to 9 or 19 at a command; 28 at 0 where the record is damaged. The third number is the cycles that the commands accepted
// have waited.
#[unsafe(no_mangle)]
pub extern "C" fn lanyardrove_stream_feed(lent: &mut Stream, portion: &[u8]) -> u64
    ensures { (result ≡ (fed_packed lent.old portion.now).answer) × (lent.new ≡ (fed_packed lent.old portion.now).after) }
{
    let both = feed_packed(*lent, portion);
    *lent = both.after;
    both.answer
}

// Closes the list of the caller's record: 0 and its words, or the refusal that the record remembers, 2, 3 or an earlier one; 28 at 0 where the record is
// damaged. The third number is the cycles that the commands accepted have waited.
#[unsafe(no_mangle)]
pub extern "C" fn lanyardrove_stream_close(lent: &mut Stream) -> u64
    ensures { (result ≡ (closed_packed lent.old).answer) × (lent.new ≡ (closed_packed lent.old).after) }
{
    let both = close_packed(*lent);
    *lent = both.after;
    both.answer
}

// What a sync adds to its code where it is missing.
const MISSING: u32 = 4;

// A sync that a command requires, and that is missing then, as a third number.
fn third_of_sync(required: Option<Sync>) -> u32
    ensures { result ≡ code_in required + cond (not (eqb (code_in required) 0)) 4 0 }
{
    match required {
        None => 0,
        Some(Sync::Load) => 1 + MISSING,
        Some(Sync::Tile) => 2 + MISSING,
        Some(Sync::Pipe) => 3 + MISSING,
    }
}

// One step of the hazards by the number of a command: 0, the sync that it requires and 4 where it is missing as the third number, and the hazards after it
// as the place. Of the hazards the low four bits count, of the number the low six.
#[unsafe(no_mangle)]
pub extern "C" fn lanyardrove_step(hazards: u32, number: u32) -> u64
    ensures { result ≡ packed (step_reply hazards number) }
{
    let step = rdp_hazards::step((hazards % 16) as u8, (number % 64) as u8);
    pack(0, third_of_sync(step.required), step.next as u32)
}

// The entries of a list at every 64th command (#111): the first of refusals 1 to 3, then 14 at the entries needed, or 0 and the entries.
#[unsafe(no_mangle)]
pub extern "C" fn lanyardrove_index_build(list: &[u8], entries: &mut [u32]) -> u64
    ensures reply { result ≡ packed (build_reply list.now entries.old) }
    ensures entries { entries.new ≡ build_out list.now entries.old }
{
    let built = rdp_index::build(list, entries);
    pack_answer(built, 0)
}

// The hazards before the command at a place, by a list's entries: the first of refusals 1, 2, 26, 3 and 24, or 0, at the place that is asked. The third number
// is the hazards and 16 times the number of commands read.
#[unsafe(no_mangle)]
pub extern "C" fn lanyardrove_index_ask(list: &[u8], entries: &[u32], place: u32) -> u64
    ensures { result ≡ packed (ask_reply list.now entries.now place) }
{
    match rdp_index::ask(list, entries, place) {
        Ok(asked) => {
            let third = asked.hazards as u32 + 16 * asked.read;
            pack(0, third, place)
        }
        Err(refusal) => pack_answer(Err(refusal), 0),
    }
}

// Replaces the command at a place by another of equal length, and the later entries: refused as building, then as a question; then 24, no command of the list
// starts there, 3 and 25; or 0, at the place.
#[unsafe(no_mangle)]
pub extern "C" fn lanyardrove_index_replace(
    list: &mut [u8],
    entries: &mut [u32],
    place: u32,
    new: &[u8],
) -> u64
    ensures { ReplaceReplies list.old entries.old place new.now result list.new entries.new }
{
    let replaced = rdp_index::replace(list, entries, place, new);
    pack_answer(replaced, 0)
}

// A repair's answer: the third number is the cycles.
fn pack_repaired(repaired: Result<Repaired, Refusal>) -> u64
    requires { (repair.told repaired).cycles < 2 ^ 24 }
    ensures { result ≡ packed (repair_reply (repair.told repaired)) }
{
    match repaired {
        Ok(r) => pack(0, r.cycles, r.words),
        Err(refusal) => pack_answer(Err(refusal), 0),
    }
}

// The repair of a list: the first of refusals 1 to 6, 19, 13 and 14, or 0, the cycles and the words written.
#[unsafe(no_mangle)]
pub extern "C" fn lanyardrove_repair(list: &[u8], work: &mut [u8], out: &mut [u8]) -> u64
    ensures { RepairReplies list.now work.old out.old result work.new out.new }
{
    let repaired = rdp_repair::repair(list, work, out);
    pack_repaired(repaired)
}

// The second repair (#109), which chooses the Load, Tile and Pipe syncs of a list afresh: the first of the repair's refusals, or 0, all waiting and the words
// written.
#[unsafe(no_mangle)]
pub extern "C" fn lanyardrove_repair_afresh(list: &[u8], work: &mut [u8], out: &mut [u8]) -> u64
    ensures { AfreshReplies list.now work.old out.old result work.new out.new }
{
    let renewed = rdp_repair::repair_afresh(list, work, out);
    pack_repaired(renewed)
}

// Drawing a list into memory that starts at an address, with texture memory: the first of refusals 1 to 9, 19, 16, and 10, 11, 17, 12 and 18, or 0 and the words of
// the list.
#[unsafe(no_mangle)]
pub extern "C" fn lanyardrove_draw(
    list: &[u8],
    memory: &mut [u8],
    start: u64,
    texture: &mut [u8],
) -> u64
    ensures reply { result ≡ packed (draw_reply list.now start (length memory.old) (length texture.old)) }
    ensures memory { memory.new ≡ (drawn list.now start (memories memory.old texture.old)).memory }
    ensures texture { texture.new ≡ (drawn list.now start (memories memory.old texture.old)).texture }
{
    let answer = rdp_draw::draw(list, memory, start, texture);
    pack_answer(answer, 0)
}

// An image in memory that starts at an address, as RGBA rows (#113): 27, 12 or 14, or 0 and the bytes written.
#[unsafe(no_mangle)]
pub extern "C" fn lanyardrove_view(
    memory: &[u8],
    start: u64,
    address: u64,
    width: u32,
    height: u32,
    size: u32,
    out: &mut [u8],
) -> u64
    ensures reply { result ≡ packed (view_reply start (length memory.now) (framebuffer_at address width height size) (length out.old)) }
    ensures output { out.new ≡ view_out memory.now start (framebuffer_at address width height size) out.old }
{
    let viewed = rdp_view::view(memory, start, address, width, height, size, out);
    pack_answer(viewed, 0)
}

// Compares two lists, command by command: the first of refusals 1, 2 and 3 of the first list, then of the second, then 14 at the numbers needed, or 0 and the
// numbers written, four for each pair of commands that differ in number or a field.
#[unsafe(no_mangle)]
pub extern "C" fn lanyardrove_compare(first: &[u8], second: &[u8], entries: &mut [u32]) -> u64
    ensures reply { result ≡ packed (compare_reply first.now second.now (length entries.old)) }
    ensures entries { entries.new ≡ entries_after first.now second.now entries.old }
{
    let compared = rdp_compare::differences(first, second, entries);
    pack_answer(compared, 0)
}

// The most that a place can be.
const MOST_PLACE: u32 = 0xFFFF_FFFF;

// Where the rest begins of the list that has more commands, where so many numbers are lent to a comparison: the comparison's number, the list (0 or 1) as the
// third number, and the byte.
#[unsafe(no_mangle)]
pub extern "C" fn lanyardrove_rest(first: &[u8], second: &[u8], count: usize) -> u64
    ensures { result ≡ packed (rest_reply first.now second.now count) }
{
    match rdp_compare::rest_start(first, second, count) {
        Ok(RestPlace::InFirst(byte)) => pack(0, 0, capped(MOST_PLACE, byte)),
        Ok(RestPlace::InSecond(byte)) => pack(0, 1, capped(MOST_PLACE, byte)),
        Err(refusal) => pack(
            u32::from(refusal.ground),
            0,
            capped(MOST_PLACE, first.len()),
        ),
    }
}

// The most bytes of a memory that count as lent, so that every offset fits 32 bits.
const MOST_LENT: u32 = 0xFFFF_FFF8;

// Writes the RDP list of the Fast3DEX2 display list at an offset of a memory: the first of refusals 20 to 23 at the offset of the refused command, then 14 at
// the words needed, or 0 and the words written. The third number is the display list commands read.
#[unsafe(no_mangle)]
pub extern "C" fn lanyardrove_translate(memory: &[u8], start: u32, out: &mut [u8]) -> u64
    ensures reply { result ≡ packed (translate_reply memory.now start (length out.old)) }
    ensures output { out.new ≡ translate_bytes memory.now start out.old }
{
    let end = capped(MOST_LENT, memory.len()) as usize;
    match f3dex2::translate(&memory[..end], start as usize, out) {
        Ok(made) => pack(0, made.read as u32, made.words as u32),
        Err(unmade) => {
            let number = u32::from(unmade.ground);
            pack(number, unmade.read as u32, unmade.place as u32)
        }
    }
}

// The words of the command that begins with a word: a plain count.
#[unsafe(no_mangle)]
pub extern "C" fn lanyardrove_words(first: u64) -> u64
    ensures { result ≡ command_words first }
{
    rdp_words::command_words(first) as u64
}

// The first command of a list: 0, its command number as the third number and the count of its fields, which are written in the order of the wiki's bit
// lines; or 3 at 0, or 14 at the count needed.
#[unsafe(no_mangle)]
pub extern "C" fn lanyardrove_decode(list: &[u8], fields: &mut [u64]) -> u64
    ensures reply { result ≡ packed (decode_reply list.now fields.old) }
    ensures fields { fields.new ≡ decode_fields list.now fields.old }
{
    match rdp_command::decode(list) {
        Ok(command) => match rdp_encode::fields(command, fields) {
            Ok(count) => pack(0, rdp_words::number_at(list, 0) as u32, count),
            Err(refusal) => pack_answer(Err(refusal), 0),
        },
        Err(cut) => pack_answer(Err(cut), 0),
    }
}

// Writes the words of a command, given by its number, its fields in the same order and the bytes that follow a triangle's base: 15 at 0, then 14 at the
// words needed, or 0 and the words written.
#[unsafe(no_mangle)]
pub extern "C" fn lanyardrove_encode(
    number: u32,
    fields: &[u64],
    suffix: &[u8],
    out: &mut [u8],
) -> u64
    ensures reply { result ≡ packed (encode_reply number fields.now suffix.now out.old) }
    ensures output { out.new ≡ encode_bytes number fields.now suffix.now out.old }
{
    match rdp_encode::from_fields(number, fields) {
        Ok(command) => pack_answer(rdp_encode::encode(command, suffix, out), 0),
        Err(unmade) => pack_answer(Err(unmade), 0),
    }
}
