// A list that arrives in portions: the caller owns one record, and each portion updates it where it stands.
#![tactic(auto)]

ghost use Rattle.std.specs.Prelude.{◌≡◌};
ghost use Rattle.rdp_words.specs.Grounds.{answered};
ghost use Rattle.rdp_stream.specs.Records.{fed_of, closed_of};
ghost use Rattle.rdp_stream.specs.Arrivals.{fed};

mod arrival;
mod feeding;
mod holding;

use arrival::Arrival;
use rdp_words::{Answer, Refusal};

// What is known of the list so far: the words that last set the registers, the held bytes of a command that is not complete, zero past them, their number,
// the bytes taken, a remembered refusal, 0 where there is none, and its place, the hazards, of which the low four bits count, and whether a Sync Full has
// come, 0 where not, two bytes that mean nothing and stay, and the cycles that the commands accepted have waited (#105). A fresh record is all zero.
// Field for field the record of C (include/lanyardrove.h): so the refusal is a number, and the held bytes stand beside their count.
#[repr(C)]
#[derive(Clone, Copy)]
pub struct Stream {
    pub words: [u64; 32],
    pub held: [u8; 176],
    pub held_count: u32,
    pub taken: u32,
    pub number: u32,
    pub place: u32,
    pub hazards: u8,
    pub ended: u8,
    pub spare: u16,
    pub waited: u32,
}

// The record after a call, and the call's answer.
#[derive(Clone, Copy)]
pub struct Fed {
    pub after: Stream,
    pub answer: Answer,
}

// The record after a portion, and what the portion answers: 28 at 0; a remembered refusal; else 0 and the words of the commands accepted so far, or the
// refusal that the record remembers from then on.
pub fn feed_value(before: Stream, portion: &[u8]) -> Fed
    ensures { fed result ≡ fed_of before portion.now }
{
    match Arrival::read(&before) {
        Ok(mut fed) => {
            fed.feed(portion);
            Fed {
                after: fed.recorded(&before),
                answer: fed.answer(),
            }
        }
        Err(ground) => Fed {
            after: before,
            answer: Err(Refusal { ground, place: 0 }),
        },
    }
}

// The record at the list's end, and what the closing answers: 28 at 0; a remembered refusal; 2, then 3; else 0 and the words of the list.
pub fn close_value(before: Stream) -> Fed
    ensures { fed result ≡ closed_of before }
{
    match Arrival::read(&before) {
        Ok(mut closed) => {
            closed.close();
            Fed {
                after: closed.recorded(&before),
                answer: closed.answer(),
            }
        }
        Err(ground) => Fed {
            after: before,
            answer: Err(Refusal { ground, place: 0 }),
        },
    }
}

// Takes a portion of a list into the record, where it stands. It answers 0 and the words of the commands accepted so far, or the refusal that the
// record remembers from then on: 1, or 4 to 9 or 19 at a command; 28 at 0 where these calls cannot have left the record.
pub fn feed(lent: &mut Stream, portion: &[u8]) -> Answer
    ensures { (answered result ≡ (fed_of lent.old portion.now).answer) × (lent.new ≡ (fed_of lent.old portion.now).after) }
{
    let before = *lent;
    let fed = feed_value(before, portion);
    *lent = fed.after;
    fed.answer
}

// Closes the list. It answers 0 and the words of the list, or the refusal that the record remembers: 2, 3, or an earlier one; 28 at 0 where these calls
// cannot have left the record.
pub fn close(lent: &mut Stream) -> Answer
    ensures { (answered result ≡ (closed_of lent.old).answer) × (lent.new ≡ (closed_of lent.old).after) }
{
    let before = *lent;
    let closed = close_value(before);
    *lent = closed.after;
    closed.answer
}
