// The comparison of two lists (#110).
#![tactic(auto)]

ghost use Rattle.std.specs.Prelude.{◌≡◌, length, Err, IfErr};
ghost use Rattle.rdp_words.specs.Grounds.{answered};
ghost use Rattle.rdp_compare.specs.Entries.{compare_answer, entries_after};
ghost use Rattle.rdp_compare.specs.Part.{Handed, rest_as, rest_start};

use rdp_words::{Answer, Refusal};

mod entries;
mod fieldwise;
mod grounds;
mod pairs;

// Where the rest begins: at a byte of the first list or of the second.
#[derive(Clone, Copy)]
pub enum RestPlace {
    InFirst(usize),
    InSecond(usize),
}

// Writes an entry for each command of two lists, paired by index, that differs in its number or a field. Refusals 1, 2, 3 of the first list, then of the
// second, then 14 at the numbers needed; else the numbers written.
pub fn differences(first: &[u8], second: &[u8], entries: &mut [u32]) -> Answer
    ensures answer { answered result ≡ compare_answer first.now second.now (length entries.old) }
    ensures entries { entries.new ≡ entries_after first.now second.now entries.old }
{
    let (needed, _) = entries::counted(first, second, entries.len())?;
    entries::write_entries(first, second, entries);
    Ok(needed)
}

// Where the rest begins of the list that has more commands, where so many numbers are lent for the entries; with equal counts, the empty end of the first
// list. Refused as the comparison is, at its place.
pub fn rest_start(first: &[u8], second: &[u8], room: usize) -> Result<RestPlace, Refusal>
    ensures start { rest_as (length first.now) result ≡ rest_start first.now second.now room }
    ensures refusal { IfErr result (λ e. answered (Err e) ≡ compare_answer first.now second.now room) }
{
    match entries::counted(first, second, room) {
        Ok((_, pairs)) => Ok(entries::rest_after(pairs, first.len())),
        Err(refusal) => Err(refusal),
    }
}

// That rest, as a part of the list that was lent; where the comparison refuses, the empty end of the first list.
pub fn rest<'a>(first: &'a [u8], second: &'a [u8], room: usize) -> &'a [u8]
    ensures { Handed first.entry second.entry result (rest_start first.now second.now room) }
{
    match rest_start(first, second, room) {
        Ok(RestPlace::InFirst(start)) => &first[start..],
        Ok(RestPlace::InSecond(start)) => &second[start..],
        Err(_) => &first[first.len()..],
    }
}
