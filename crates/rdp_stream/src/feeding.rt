// What the next bytes of a list and its end do to what is known of it.
ghost use Rattle.std.specs.Prelude.{◌≡◌, ◌+◌, ◌*◌, ◌/◌, ◌%◌, ◌≤◌, length};
ghost use Rattle.rdp_words.specs.Lengths.{whole_words};
ghost use Rattle.rdp_words.specs.Grounds.{answered, number_of, number_if};
ghost use Rattle.rdp_stream.specs.Portions.{fed_bytes, closed, accepted, answer_of, remembering};
ghost use Rattle.rdp_stream.specs.Records.{kept_in, stream_of, ended_as};
ghost use Rattle.rdp_command.specs.Decode.{answer};
ghost use Rattle.rdp_stream.specs.Steps.{Complete, holding_all, nothing_held};
ghost use Rattle.rdp_stream.specs.Arrivals.{known, IsOpen, IsRead};

use crate::{Arrival, Stream, holding};
use rdp_state::Standing;
use rdp_words::{Answer, Ground, Refusal};

// Whether a Sync Full has come, as the record's number: that of the record before stays.
fn ended_as(before: u8, ended: bool) -> u8
    ensures { result ≡ ended_as before ended }
{
    match (ended, before) {
        (false, _) => 0,
        (true, 0) => 1,
        (true, _) => before,
    }
}

impl Arrival {
    // What a record stands for, or 28. It goes into its callers, so that what it answers is not moved once more.
    #[inline(always)]
    pub fn read(stream: &Stream) -> Result<Arrival, Ground>
        ensures { IsRead stream.now result }
    {
        let count = stream.held_count;
        if holding::is_damaged(&stream.held, count, stream.taken, stream.waited) {
            return Err(Ground::Damaged);
        }
        let ground = holding::remembered(stream.number)?;
        let words = stream.words;
        let standing = Standing {
            words,
            hazards: stream.hazards,
            ended: stream.ended != 0,
            waited: stream.waited,
        };
        let held = stream.held;
        Ok(Arrival {
            standing,
            held,
            held_count: count,
            taken: stream.taken,
            ground,
            place: stream.place,
        })
    }

    // The record that stands for it, with what it keeps of the record before.
    #[inline(always)]
    pub fn recorded(&self, before: &Stream) -> Stream
        ensures { result ≡ stream_of (kept_in before.now) (known self.now) }
    {
        let standing = self.standing;
        let words = standing.words;
        let held = self.held;
        Stream {
            words,
            held,
            held_count: self.held_count,
            taken: self.taken,
            number: self.ground.map_or(0, u32::from),
            place: self.place,
            hazards: standing.hazards,
            ended: ended_as(before.ended, standing.ended),
            spare: before.spare,
            waited: standing.waited,
        }
    }

    // A refusal is remembered.
    fn remember(&mut self, refused: Ground, place: u32)
        ensures { known self.new ≡ remembering (answer (number_of refused) place) (known self.old) }
    {
        self.ground = Some(refused);
        self.place = place;
    }

    // No byte is held any more, and so many are taken.
    fn release(&mut self, taken: u32)
        requires { (taken % 8 ≡ 0) × (taken ≤ 32768) }
        ensures known { known self.new ≡ nothing_held self.old.standing taken (number_if self.old.ground) self.old.place }
        ensures open { IsOpen self.old → IsOpen self.new }
        ensures none { self.new.held_count ≡ 0 }
    {
        self.held = [0; 176];
        self.held_count = 0;
        self.taken = taken;
    }

    // A command is refused, so many words after a byte that begins one.
    fn refuse(&mut self, start: u32, refusal: Refusal)
        requires { start + 8 * refusal.place ≤ 32768 }
        ensures { known self.new ≡ nothing_held self.old.standing (8 * (start / 8 + refusal.place)) (number_of refusal.ground) (start / 8 + refusal.place) }
    {
        let place = start / 8 + refusal.place;
        self.release(8 * place);
        self.remember(refusal.ground, place);
    }

    // What is left after the commands of a part is held.
    fn hold(&mut self, rest: &[u8])
        requires { (self.old.held_count ≡ 0) × ((whole_words rest.now ≡ 0) × (self.old.taken + length rest.now ≤ 32768)) }
        ensures { known self.new ≡ holding_all (known self.old) rest.now }
    {
        let count = rest.len();
        let held = holding::fill([0; 176], 0, rest, count);
        self.held = held;
        self.held_count = count as u32;
        self.taken += count as u32;
    }

    // A part that begins at a command's first byte.
    fn feed_whole(&mut self, part: &[u8])
        requires { (IsOpen self.old × (self.old.held_count ≡ 0)) × (self.old.taken + length part.now ≤ 32768) }
        ensures { known self.new ≡ fed_bytes (known self.old) part.now }
    {
        if part.len() < 8 {
            self.hold(part);
            return;
        }
        let start = self.taken;
        let resumed = rdp_state::resume(self.standing, part);
        let outcome = resumed.outcome;
        self.standing = resumed.standing;
        match outcome {
            Ok(words) => {
                self.taken = start + 8 * words;
                self.hold(&part[8 * words as usize..]);
            }
            Err(refusal) => self.refuse(start, refusal),
        }
    }

    // Held bytes that a part has completed, and the part after them.
    fn finish(&mut self, filled: &[u8; 176], words: usize, part: &[u8])
        requires { IsOpen self.old × Complete self.old.held self.old.held_count self.old.taken filled.now words part.now }
        ensures { known self.new ≡ fed_bytes (known self.old) part.now }
    {
        let end = 8 * words;
        let used = end - self.held_count as usize;
        let start = self.taken - self.held_count;
        let resumed = rdp_state::resume(self.standing, &filled[..end]);
        self.standing = resumed.standing;
        match resumed.outcome {
            Ok(_) => {
                self.release(start + end as u32);
                self.feed_whole(&part[used..]);
            }
            Err(refusal) => self.refuse(start, refusal),
        }
    }

    // A part after held bytes.
    fn feed_held(&mut self, part: &[u8])
        requires { IsOpen self.old × (self.old.taken + length part.now ≤ 32768) }
        ensures { known self.new ≡ fed_bytes (known self.old) part.now }
    {
        let at = self.held_count as usize;
        let len = part.len();
        let copied = len.min(176 - at);
        let filled = holding::fill(self.held, at, part, copied);
        let words = rdp_words::whole_words(&filled[..at + copied]);
        if words == 0 {
            self.held = filled;
            self.held_count += len as u32;
            self.taken += len as u32;
            return;
        }
        self.finish(&filled, words, part);
    }

    // A part for which there is room.
    fn feed_some(&mut self, part: &[u8])
        requires { IsOpen self.old × (self.old.taken + length part.now ≤ 32768) }
        ensures { known self.new ≡ fed_bytes (known self.old) part.now }
    {
        if self.held_count == 0 {
            self.feed_whole(part);
            return;
        }
        self.feed_held(part);
    }

    // A portion: what there is room for is fed; then 1.
    pub fn feed(&mut self, portion: &[u8])
        ensures { known self.new ≡ fed_bytes (known self.old) portion.now }
    {
        if self.ground.is_some() {
            return;
        }
        let room = rdp_check::MOST_BYTES - self.taken as usize;
        let fed = portion.len().min(room);
        self.feed_some(&portion[..fed]);
        if (fed == portion.len()) | self.ground.is_some() {
            return;
        }
        self.remember(Ground::TooLong, rdp_check::MOST_WORDS);
    }

    // The words of the commands accepted so far.
    fn accepted(&self) -> u32
        ensures { result ≡ accepted (known self.now) }
    {
        (self.taken - self.held_count) / 8
    }

    // The list's end: 2, then 3.
    pub fn close(&mut self)
        ensures { known self.new ≡ closed (known self.old) }
    {
        if self.ground.is_some() {
            return;
        }
        if self.taken % 8 != 0 {
            let place = self.taken / 8;
            self.remember(Ground::NotWords, place);
            return;
        }
        if self.held_count != 0 {
            let place = self.accepted();
            self.remember(Ground::Cut, place);
        }
    }

    // The remembered refusal, or the words of the commands accepted so far.
    pub fn answer(&self) -> Answer
        ensures { answered result ≡ answer_of (known self.now) }
    {
        match self.ground {
            None => Ok(self.accepted()),
            Some(ground) => Err(Refusal {
                ground,
                place: self.place,
            }),
        }
    }
}
