// A question: the entry that it starts at, and the commands that it reads.
ghost use Rattle.std.specs.Prelude.{◌≡◌, suc, ◌/◌, ◌%◌, ◌≤◌, ◌<◌, length, MatchOption};
ghost use Rattle.rdp_index.specs.Index.{replied, last_before, read_entry};

use crate::Asked;
use rdp_hazards::{StepTable, hazards};
use rdp_words::{Ground, Refusal};

// Of the entries the last one whose place is not beyond the asked one.
pub fn last_before(entries: &[u32], place: u32) -> Option<usize>
    ensures { let last = last_before place entries.now (length entries.now / 2) in
        MatchOption result (last ≡ 0) (λ i. (last ≡ suc i) × (i < length entries.now / 2)) }
{
    for i in (0..entries.len() / 2).rev() {
        if entries[2 * i] <= place {
            return Some(i);
        }
    }
    None
}

// Reads commands from a place and hazards on: at most 64, and none that starts past the asked place or outside the list. It stays a
// function of its own: within the question its loop's branches come to lie where they take a tenth longer.
#[inline(never)]
pub fn read_on(
    table: &StepTable,
    list: &[u8],
    start: u32,
    before: u8,
    place: u32,
) -> Result<Asked, Refusal>
    requires { (length list.now % 8 ≡ 0) × (length list.now ≤ 32768) × (before < 16) }
    ensures { replied place result ≡ read_entry list.now place start before }
{
    let none = Refusal {
        ground: Ground::NotAtPlace,
        place,
    };
    let words = list.len() / 8;
    let asked = place as usize;
    let mut at = start as usize;
    let mut hazards = before;
    for read in 0..64 {
        if (asked < at) | (words <= at) {
            return Err(none);
        }
        let number = rdp_words::number_at(list, at);
        let count = rdp_words::words_of(number);
        if words - at < count {
            return Err(Refusal {
                ground: Ground::Cut,
                place,
            });
        }
        if at == asked {
            return Ok(Asked {
                hazards,
                read: read + 1,
            });
        }
        hazards = hazards::next(&table.entries, hazards, number);
        at += count;
    }
    Err(none)
}
