// Whether lists decode.
ghost use Rattle.std.specs.Prelude.{cond, ◌≡◌, ◌++◌, ◌*◌, ◌/◌, ◌≤◌, length};
ghost use Rattle.rdp_command.specs.Decode.{answer};
ghost use Rattle.rdp_words.specs.Grounds.{answered};
ghost use Rattle.rdp_check.specs.Commands.{commands_of, rest_of, words_in};
ghost use Rattle.rdp_check.specs.Order.{first_of};
ghost use Rattle.rdp_check.specs.Refusals.{is_some};
ghost use Rattle.rdp_compare.specs.Entries.{decode_grounds};
ghost use Rattle.rdp_compare.specs.Steps.{decode_answer};

use rdp_check::Commands;
use rdp_words::{Answer, Ground, Refusal};

// The commands of a list of whole words: 3 at one that runs past the end, or the number of words.
fn cut_at(list: &[u8], words: usize) -> Answer
    requires { (length list.now ≡ 8 * words) × (words ≤ 4096) }
    ensures { answered result ≡ cond (is_some (rest_of list.now)) (answer 3 (words_in (commands_of list.now))) (answer 0 words) }
{
    let end: usize = Commands(list).map(|command| command.len()).sum();
    if end < list.len() {
        return Err(Refusal {
            ground: Ground::Cut,
            place: (end / 8) as u32,
        });
    }
    Ok(words as u32)
}

// The first of grounds 1, 2 and 3 that holds, or the number of words.
fn first_ground(list: &[u8]) -> Answer
    ensures { answered result ≡ decode_answer list.now }
{
    let len = list.len();
    if rdp_check::MOST_BYTES < len {
        return Err(Refusal {
            ground: Ground::TooLong,
            place: rdp_check::MOST_WORDS,
        });
    }
    let words = len / 8;
    if len % 8 != 0 {
        return Err(Refusal {
            ground: Ground::NotWords,
            place: words as u32,
        });
    }
    cut_at(list, words)
}

// The first ground of the first list, then of the second, or the words of the second.
pub fn of_both(first: &[u8], second: &[u8]) -> Answer
    ensures { answered result ≡ first_of (decode_grounds first.now ++ decode_grounds second.now) (answer 0 (length second.now / 8)) }
{
    first_ground(first)?;
    first_ground(second)
}
