// The hazards before one command of a list, from entries that are kept at every 64th command (#111).
#![tactic(auto)]

ghost use Rattle.std.specs.Prelude.{◌≡◌};
ghost use Rattle.rdp_words.specs.Grounds.{answered};
ghost use Rattle.rdp_index.specs.Index.{BuildIs, replied, ask_of, ReplaceIs};

mod asking;
mod noting;
mod replacing;

use rdp_hazards::table;
use rdp_words::{Answer, Ground, Refusal};

// What a question answers: the hazards before the command at the asked place, and the number of commands read.
#[derive(Clone, Copy, Debug, PartialEq, Eq)]
pub struct Asked {
    pub hazards: u8,
    pub read: u32,
}

// Writes the place of every 64th command from the first and the hazards before it, two numbers an entry. Refusals 1, 2 and 3 of the list with the
// check's places, then 14 with the entries needed; else the number of entries. What lies beyond the entries is untouched.
pub fn build(list: &[u8], entries: &mut [u32]) -> Answer
    ensures { BuildIs list.now entries.old (answered result) entries.new }
{
    let mut made = [0u32; 128];
    let found = noting::index_into(list, &mut made)?;
    let count = noting::fitting(entries.len() / 2, found)?;
    let end = 2 * count as usize;
    entries[..end].copy_from_slice(&made[..end]);
    Ok(count)
}

// The hazards before the command at a place, read from the last entry whose place is not beyond it. Refusals 1 and 2 of the list; 26, there is no such
// entry or its hazards are not among the sixteen; 3, a command that is read is cut; 24, no command that is read starts at the place.
pub fn ask(list: &[u8], entries: &[u32], place: u32) -> Result<Asked, Refusal>
    ensures { replied place result ≡ ask_of list.now entries.now place }
{
    noting::size_answer(list)?;
    let none = Refusal {
        ground: Ground::NoEntry,
        place,
    };
    let Some(i) = asking::last_before(entries, place) else {
        return Err(none);
    };
    let at = entries[2 * i];
    let hazards = entries[2 * i + 1];
    if 16 <= hazards {
        return Err(none);
    }
    let table = table::step_table();
    asking::read_on(&table, list, at, hazards as u8, place)
}

// Replaces the command at a place by another of equal length; the later entries are then those built from the new list, and the entries up to that
// command, its own included, are untouched. Refuses first as building does, then as a question; then 24, no command of the list starts at the place
// (whatever the entries say); 3, the new command is cut; 25, the lengths differ. Else it answers the place.
pub fn replace(list: &mut [u8], entries: &mut [u32], place: u32, new: &[u8]) -> Answer
    ensures { ReplaceIs list.old entries.old place new.now (answered result) list.new entries.new }
{
    let taken = replacing::replacement(list, entries, place, new)?;
    replacing::put_command(list, place, new);
    replacing::renew(list, entries, place);
    Ok(taken)
}
