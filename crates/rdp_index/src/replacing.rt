// Replacing one command by another of equal length: the refusals, the bytes and the entries.
ghost use Rattle.std.specs.Prelude.{◌≡◌, ◌+◌, ◌*◌, ◌/◌, ◌≤◌, length};
ghost use Rattle.rdp_words.specs.Grounds.{answered};
ghost use Rattle.rdp_words.specs.Lengths.{whole_words};
ghost use Rattle.rdp_check.specs.Commands.{commands_of};
ghost use Rattle.rdp_index.specs.Index.{entries_of, index_answer, last_before, starts_at, with_command, renewed};
ghost use Rattle.rdp_index.specs.Steps.{ReplacementIs};

use crate::{asking, noting};
use rdp_check::Commands;
use rdp_words::{Answer, Ground, Refusal};

// Whether a command of the list starts at a place.
fn starts_at(list: &[u8], place: usize) -> bool
    ensures { result ≡ starts_at place 0 (commands_of list.now) }
{
    let mut at: usize = 0;
    for command in Commands(list) {
        if place <= at {
            return at == place;
        }
        at += rdp_words::words_of(rdp_words::number_at(command, 0));
    }
    false
}

// What replacing answers.
pub fn replacement(list: &[u8], entries: &[u32], place: u32, new: &[u8]) -> Answer
    ensures { ReplacementIs list.now entries.now place new.now (answered result) }
{
    noting::room_answer(list, entries.len() / 2)?;
    crate::ask(list, entries, place)?;
    let at = place as usize;
    if !starts_at(list, at) {
        return Err(Refusal {
            ground: Ground::NotAtPlace,
            place,
        });
    }
    let words = rdp_words::whole_words(new);
    if words == 0 {
        return Err(Refusal {
            ground: Ground::Cut,
            place,
        });
    }
    let old = rdp_words::words_of(rdp_words::number_at(list, at));
    if words != old {
        return Err(Refusal {
            ground: Ground::OtherLength,
            place,
        });
    }
    Ok(place)
}

// Writes the bytes of the first command of new at a place.
pub fn put_command(list: &mut [u8], place: u32, new: &[u8])
    requires { 8 * place + 8 * whole_words new.now ≤ length list.old }
    ensures { list.new ≡ with_command list.old place new.now }
{
    let at = 8 * place as usize;
    let count = 8 * rdp_words::whole_words(new);
    let end = at + count;
    rdp_words::copy(&mut list[at..end], &new[0..count]);
}

// How many entries stand up to the command at a place, its own included.
fn kept(entries: &[u32], place: u32) -> usize
    ensures { (result ≡ last_before place entries.now (length entries.now / 2)) × (result ≤ length entries.now / 2) }
{
    match asking::last_before(entries, place) {
        Some(i) => i + 1,
        None => 0,
    }
}

// Writes the entries after the command at a place as they are built from the list.
pub fn renew(list: &[u8], entries: &mut [u32], place: u32)
    requires { ((index_answer list.now).number ≡ 0) × ((index_answer list.now).place ≤ length entries.old / 2) }
    ensures { entries.new ≡ renewed (entries_of list.now) place entries.old }
{
    let mut made = [0u32; 128];
    let count = noting::index_into(list, &mut made).unwrap();
    let end = 2 * count as usize;
    let start = 2 * kept(&made[..end], place);
    entries[start..end].copy_from_slice(&made[start..end]);
}
