// The entries of paired commands that differ.
ghost use Rattle.std.specs.Prelude.{◌≡◌, ◌+◌, ◌≤◌, Ok, Err, MatchResult, length};
ghost use Rattle.rdp_words.specs.Words.{overwrite, WrittenIs};
ghost use Rattle.rdp_words.specs.Grounds.{answered};
ghost use Rattle.rdp_compare.specs.Entries.{pair_entry, pair_entries, compare_answer};
ghost use Rattle.rdp_compare.specs.Part.{rest_as};
ghost use Rattle.rdp_compare.specs.Places.{OneCommand};
ghost use Rattle.rdp_compare.specs.Steps.{difference, Over, rest_in, Counted};

use crate::pairs::{Pair, Pairs};
use crate::{RestPlace, fieldwise, grounds};
use rdp_words::{Ground, Refusal};

// Which fields of two commands differ: none where the commands are the same, and no bit of 0 where their numbers differ.
fn compared(first: &[u8], second: &[u8]) -> Option<u64>
    requires { OneCommand first.now × OneCommand second.now }
    ensures { result ≡ difference first.now second.now }
{
    let n = rdp_words::number_at(first, 0);
    let m = rdp_words::number_at(second, 0);
    if n != m {
        return Some(0);
    }
    if fieldwise::same(first, second) {
        return None;
    }
    let mask = fieldwise::differing(n, first, second);
    (mask != 0).then_some(mask)
}

// The numbers of an entry, or none.
fn entry_len(pair: Pair) -> usize
    ensures { result ≡ length (pair_entry pair.entry.a pair.entry.b pair.entry.first.now pair.entry.second.now) }
{
    match compared(pair.first, pair.second) {
        Some(_) => 4,
        None => 0,
    }
}

// Writes an entry, or nothing, at an index, and answers the index after it.
fn put_entry(entries: &mut [u32], to: usize, pair: Pair) -> usize
    requires { to + length (pair_entry pair.a pair.b pair.first.now pair.second.now) ≤ length entries.old }
    ensures { WrittenIs (pair_entry pair.entry.a pair.entry.b pair.entry.first.now pair.entry.second.now) to result entries.old entries.new }
{
    let Some(mask) = compared(pair.first, pair.second) else {
        return to;
    };
    let entry = [
        pair.a as u32,
        pair.b as u32,
        (mask >> 32) as u32,
        (mask % 0x1_0000_0000) as u32,
    ];
    let end = to + 4;
    entries[to..end].copy_from_slice(&entry);
    end
}

// How many numbers the entries of two lists have, and the pairs at their end.
pub fn counted<'a>(
    first: &'a [u8],
    second: &'a [u8],
    room: usize,
) -> Result<(u32, Pairs<'a>), Refusal>
    ensures { MatchResult result (λ r. Counted first.now second.now room r.0 r.1) (λ e. answered (Err e) ≡ compare_answer first.now second.now room) }
{
    grounds::of_both(first, second)?;
    let mut pairs = Pairs::new(first, second);
    let mut count = 0;
    // `for` would take the pairs, and what they leave of both lists is answered.
    while let Some(pair) = pairs.next() {
        count += entry_len(pair);
    }
    let place = count as u32;
    if room < count {
        return Err(Refusal {
            ground: Ground::OutputTooShort,
            place,
        });
    }
    Ok((place, pairs))
}

// Writes the entries of two lists.
pub fn write_entries(first: &[u8], second: &[u8], entries: &mut [u32])
    requires { ((length first.now ≤ 32768) × (length second.now ≤ 32768)) × (length (pair_entries first.now second.now) ≤ length entries.old) }
    ensures { entries.new ≡ overwrite (pair_entries first.now second.now) entries.old }
{
    let mut to = 0;
    for pair in Pairs::new(first, second) {
        to = put_entry(entries, to, pair);
    }
}

// Where the rest begins after the paired commands of lists the first of which ends at this byte.
pub fn rest_after(pairs: Pairs, end: usize) -> RestPlace
    requires { Over pairs }
    ensures { rest_as end (Ok result) ≡ rest_in end pairs.entry }
{
    let mut first = pairs.first;
    let mut second = pairs.second;
    if first.next().is_some() {
        return RestPlace::InFirst(8 * pairs.a);
    }
    if second.next().is_some() {
        return RestPlace::InSecond(8 * pairs.b);
    }
    RestPlace::InFirst(end)
}
