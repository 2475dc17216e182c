// The walk over the acts of a list, with the words that last set the registers.
ghost use Rattle.std.specs.Prelude.{◌≡◌, ◌<◌};
ghost use Rattle.rdp_draw.specs.Seen.{fill_at, copy_at, load_at, Reaches};

use rdp_command::{CopyFields, CopyWords, FillFields, FillWords, LoadFields, LoadWords};
use rdp_state::slots;

// The commands that set a register, a bit for each number.
const SETTERS: u64 = 0xFFBD_FC00_0000_0000;

// An act: its place and its number.
#[derive(Clone, Copy)]
pub struct Reached {
    pub place: usize,
    pub number: u8,
}

// The first act from a place on, if there is one; the words before it are stored in the file, and a load's own. Every command but an act has one word.
pub fn next_act(list: &[u8], from: usize, file: &mut [u64; 32]) -> Option<Reached>
    ensures { Reaches list.now from file.old result file.new }
{
    let words = list.len() / 8;
    for at in from..words {
        let head = rdp_command::head_at(list, at);
        let number = head.number;
        if rdp_words::is_among(rdp_words::DRAWS, number) {
            return Some(Reached { place: at, number });
        }
        if rdp_words::is_among(SETTERS, number) {
            rdp_state::store(file, number, rdp_words::word_at(list, at));
            if rdp_words::is_among(rdp_words::LOADS, number) {
                return Some(Reached { place: at, number });
            }
        }
    }
    None
}

// A fill rectangle at a place, with what it is drawn under.
pub fn fill_at(list: &[u8], place: usize, file: &[u64; 32]) -> FillFields
    ensures { result ≡ fill_at file.now list.now place }
{
    let set = FillWords {
        modes: file[slots::OTHER_MODES],
        scissor: file[slots::SCISSOR],
        image: file[slots::COLOR_IMAGE],
        color: file[slots::FILL_COLOR],
    };
    rdp_command::fill_fields(set, rdp_words::word_at(list, place))
}

// A texture rectangle at a place, with what it is drawn under.
pub fn copy_at(list: &[u8], place: usize, file: &[u64; 32]) -> CopyFields
    requires { place < 4096 }
    ensures { result ≡ copy_at file.now list.now place }
{
    let word = rdp_words::word_at(list, place);
    let tile = rdp_state::tile_in(word);
    let set = CopyWords {
        modes: file[slots::OTHER_MODES],
        scissor: file[slots::SCISSOR],
        image: file[slots::COLOR_IMAGE],
        tile: file[slots::TILES + tile],
        size: file[slots::TILE_SIZES + tile],
    };
    rdp_command::copy_fields(set, word, rdp_words::word_at(list, place + 1))
}

// A Load Tile or a Load Block at a place, with what it is done under.
pub fn load_at(list: &[u8], place: usize, file: &[u64; 32]) -> LoadFields
    ensures { result ≡ load_at file.now list.now place }
{
    let word = rdp_words::word_at(list, place);
    let tile = rdp_state::tile_in(word);
    let set = LoadWords {
        image: file[slots::TEXTURE_IMAGE],
        tile: file[slots::TILES + tile],
    };
    rdp_command::load_fields(set, word)
}
