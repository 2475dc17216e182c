// The command that caused the refusal of another: the latest that set the mark which that one needs cleared.
ghost use Rattle.std.specs.Prelude.{cond, true, [], ◌≡◌, ◌/◌, ◌<◌, length};
ghost use Rattle.rdp_words.specs.Grounds.{number_if};
ghost use Rattle.rdp_words.specs.Kinds.{between, is_among};
ghost use Rattle.rdp_check.specs.Commands.{commands_of, rest_of};
ghost use Rattle.rdp_check.specs.Cause.{awaited, latest, cause_of};
ghost use Rattle.rdp_check.specs.View.{Numbers, IsJudged};

use rdp_words::Ground;

// Command numbers, a bit for each: the textured draws and the loads.
const READS_TILE: u64 = 0x0000_0030_0000_CC00 | rdp_words::LOADS;

// The numbers of the commands that set the mark which a command needs cleared.
fn awaited_by(number: u8) -> u64
    requires { number < 64 }
    ensures { Numbers result (awaited number).sets }
{
    if rdp_words::is_among(rdp_words::DRAWS, number) {
        return rdp_words::LOADS;
    }
    if number == 0x35 {
        return READS_TILE;
    }
    rdp_words::DRAWS
}

// The place of the latest command of a list whose number is among some; where there is none, the other. A while, as no range has a command's own length as
// its step: by `Commands`, which reads the head of each command once more, a list that is refused at its end takes a third longer.
fn latest_among(numbers: u64, list: &[u8], other: usize) -> usize
    requires { rest_of list.now ≡ [] }
    ensures { result ≡ latest (is_among numbers) other 0 (commands_of list.now) }
{
    let words = list.len() / 8;
    let mut at: usize = 0;
    let mut found = other;
    while at < words {
        let number = rdp_words::number_at(list, at);
        if rdp_words::is_among(numbers, number) {
            found = at;
        }
        at += rdp_words::words_of(number);
    }
    found
}

// Whether a sync is missing: 7, 8 and 9.
fn misses_sync(refused: Option<Ground>) -> bool
    ensures { result ≡ between 7 9 (number_if refused) }
{
    matches!(
        refused,
        Some(Ground::LoadMissing | Ground::TileMissing | Ground::PipeMissing)
    )
}

// The cause of a refusal of a whole list by 7, 8 or 9, by a second walk up to its place; at every other answer the whole words. Of a portion no
// cause is asked, so `whole` is a flag. Kept out of the walk, whose loop else counts the bytes up to the place, too, and takes half as long again.
#[inline(never)]
pub fn cause_of(list: &[u8], refused: Option<Ground>, place: u32, whole: bool) -> usize
    requires { whole ≡ true → IsJudged list.now (number_if refused) place }
    ensures { result ≡ cond whole (cause_of list.now (number_if refused) place) (length list.now / 8) }
{
    let words = list.len() / 8;
    if !(whole & misses_sync(refused)) {
        return words;
    }
    let at = place as usize;
    let number = rdp_words::number_at(list, at);
    let numbers = awaited_by(number);
    latest_among(numbers, &list[0..8 * at], words)
}
