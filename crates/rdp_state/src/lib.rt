// The registers as the words that last set them, and the registers after a list.
#![tactic(auto)]

ghost use Rattle.std.specs.Prelude.{◌≡◌, ◌%◌, ◌<◌};
ghost use Rattle.rdp_words.specs.Grounds.{answered};
ghost use Rattle.rdp_state.specs.RegisterWords.{tile_in, words_after};
ghost use Rattle.rdp_state.specs.Replay.{end_of, told_in, told_by};
ghost use Rattle.rdp_state.specs.After.{list_state_in, list_state_of};
ghost use Rattle.rdp_state.specs.Resume.{resumed_in, resumed_of};

pub mod slots;
mod updates;

use rdp_check::{Accepted, Checkpoint, Refused, Registers};
use rdp_words::{Answer, Ground, Refusal};

// The words of a list that is accepted, or its first refusal, with the hazards and the registers there.
#[derive(Clone, Copy)]
pub struct ListState {
    pub outcome: Answer,
    pub hazards: u8,
    pub registers: Registers,
}

// Where a list stands between two of its commands: the words that last set the registers, the hazards, of which the low four bits count, whether a Sync
// Full has come, and the cycles that its syncs have waited.
#[derive(Clone, Copy)]
pub struct Standing {
    pub words: [u64; 32],
    pub hazards: u8,
    pub ended: bool,
    pub waited: u32,
}

// What the commands of a list leave: the words that last set the registers, and the cycles waited.
#[derive(Clone, Copy)]
pub struct Replay {
    pub words: [u64; 32],
    pub waited: u32,
}

// Where the list stands, and the place after the last whole command, or the first refusal.
#[derive(Clone, Copy)]
pub struct Resumed {
    pub standing: Standing,
    pub outcome: Answer,
}

// What the check tells of a list, and the hazards there. This and the next are functions of their own, so that their matches don't stand between the zeros of a
// file and the words that it is made into, which the compiler would then copy by a call of `memcpy`.
#[inline(never)]
fn told_of(checked: Result<Accepted, Refused>) -> (Answer, u8)
    ensures { told_in result ≡ told_by checked }
{
    match checked {
        Ok(accepted) => (Ok(accepted.words), accepted.hazards),
        Err(refused) => (Err(Refusal::from(refused)), refused.hazards),
    }
}

// Where the commands end whose registers an answer of the check has: at its place, but for 1 and 2 before the first.
#[inline(never)]
fn end_of(outcome: Answer) -> usize
    ensures { result ≡ end_of (answered outcome).number (answered outcome).place }
{
    match outcome {
        Ok(words) => words as usize,
        Err(refusal) => match refusal.ground {
            Ground::TooLong | Ground::NotWords => 0,
            _ => refusal.place as usize,
        },
    }
}

// The tile that a word names.
pub fn tile_in(w: u64) -> usize
    ensures { (result ≡ tile_in w) × (result < 8) }
{
    ((w >> 24) % 8) as usize
}

// Stores the first word of a command, by its number, in the slot of the register that it sets; nothing where it sets none. The file has the words that
// last set each register, and is all zero before the first command. Of the number the low six bits count.
pub fn store(file: &mut [u64; 32], number: u8, word: u64)
    ensures { file.new ≡ words_after file.old (number % 64) word }
{
    if let Some(slot) = updates::slot_of(number % 64, word) {
        file[slot] = word;
    }
}

// The check's answer with the registers after the last command; at a refusal, those before the refused command; at 1 or 2, the starting ones.
pub fn registers_after(list: &[u8]) -> ListState
    ensures { list_state_in result ≡ list_state_of list.now }
{
    let (outcome, hazards) = told_of(rdp_check::check(list));
    let end = end_of(outcome);
    let replay = updates::replay_from([0; 32], 0, list, end);
    let registers = updates::registers_of(&replay.words);
    ListState {
        outcome,
        hazards,
        registers,
    }
}

// The whole commands of bytes, judged from where a list stands; a command whose words are not all there is not looked at. At a refusal the list stands
// before the refused command. Of more than 32,768 bytes none is judged: 1 at 4,096.
pub fn resume(before: Standing, bytes: &[u8]) -> Resumed
    ensures { resumed_in result ≡ resumed_of before bytes.now }
{
    let file = before.words;
    let other_modes = file[slots::OTHER_MODES];
    let color_image = file[slots::COLOR_IMAGE];
    let scissor = file[slots::SCISSOR];
    let checkpoint = Checkpoint {
        other_modes,
        color_image,
        scissor,
        hazards: before.hazards,
        ended: before.ended,
    };
    let judged = rdp_check::check_from(checkpoint, bytes);
    let outcome = judged.outcome;
    let replay = updates::replay_from(file, before.waited, bytes, end_of(outcome));
    let words = replay.words;
    Resumed {
        standing: Standing {
            words,
            hazards: judged.hazards,
            ended: judged.ended,
            waited: replay.waited,
        },
        outcome,
    }
}
