// The entries of a list, in one pass.
ghost use Rattle.std.specs.Prelude.{◌≡◌, ◌%◌, ◌≤◌, length};
ghost use Rattle.rdp_words.specs.Grounds.{answered};
ghost use Rattle.rdp_command.specs.Decode.{answer};
ghost use Rattle.rdp_index.specs.Index.{index_answer, room_answer};
ghost use Rattle.rdp_index.specs.Steps.{size_answer, IndexIs};

use rdp_check::Commands;
use rdp_hazards::{StepTable, hazards, table};
use rdp_words::{Answer, Ground, Refusal};

// The commands of a list of whole words, in order: where `left` is 0 an entry is noted. Refuses by 3 where bytes are left.
fn note(table: &StepTable, list: &[u8], made: &mut [u32]) -> Answer
    requires { (length list.now % 8 ≡ 0) × (length list.now ≤ 32768) × (length made.old ≡ 128) }
    ensures { IndexIs list.now (answered result) made.new }
{
    let mut at: usize = 0;
    let mut hazards: u8 = 0;
    let mut left: usize = 0;
    let mut entries: usize = 0;
    for command in Commands(list) {
        let number = rdp_words::number_at(command, 0);
        let count = rdp_words::words_of(number);
        if left == 0 {
            made[2 * entries] = at as u32;
            made[2 * entries + 1] = hazards as u32;
            hazards = hazards::next(&table.entries, hazards, number);
            at += count;
            left = 63;
            entries += 1;
            continue;
        }
        hazards = hazards::next(&table.entries, hazards, number);
        at += count;
        left -= 1;
    }
    if at < list.len() / 8 {
        return Err(Refusal {
            ground: Ground::Cut,
            place: at as u32,
        });
    }
    Ok(entries as u32)
}

// Refusals 1 and 2 of a list, or its words.
pub fn size_answer(list: &[u8]) -> Answer
    ensures { answered result ≡ size_answer list.now }
{
    let len = list.len();
    if rdp_check::MOST_BYTES < len {
        return Err(Refusal {
            ground: Ground::TooLong,
            place: rdp_check::MOST_WORDS,
        });
    }
    let words = (len / 8) as u32;
    if len % 8 != 0 {
        return Err(Refusal {
            ground: Ground::NotWords,
            place: words,
        });
    }
    Ok(words)
}

// The entries of a list, with 1, 2 and 3 of the list, or their number.
pub fn index_into(list: &[u8], made: &mut [u32]) -> Answer
    requires { length made.old ≡ 128 }
    ensures { IndexIs list.now (answered result) made.new }
{
    size_answer(list)?;
    let table = table::step_table();
    note(&table, list, made)
}

// A number of entries, or 14 where there is room for fewer.
#[tactic(auto, unfolding(crate::specs::Index::room_answer))]
pub fn fitting(room: usize, count: u32) -> Answer
    ensures { answered result ≡ room_answer room (answer 0 count) }
{
    if room < count as usize {
        return Err(Refusal {
            ground: Ground::OutputTooShort,
            place: count,
        });
    }
    Ok(count)
}

// What building answers where there is room for so many entries.
pub fn room_answer(list: &[u8], room: usize) -> Answer
    ensures { answered result ≡ room_answer room (index_answer list.now) }
{
    let mut made = [0u32; 128];
    let found = index_into(list, &mut made)?;
    fitting(room, found)
}
