// The check of a command list: refusals and registers.
#![tactic(auto)]

ghost use Rattle.std.specs.Prelude.{◌≡◌};
ghost use Rattle.rdp_check.specs.Check.{check_of, repair_check_of, checked_in, refusal_in};
ghost use Rattle.rdp_check.specs.Checkpoint.{check_from, judged_in};

mod cause;
mod commands;
mod hazards;
mod onward;
mod walk;

pub use commands::Commands;
use rdp_command::{
    Color, Convert, Image, KeyGb, KeyR, OtherModes, PrimitiveColor, PrimitiveDepth, Scissor,
    TexelCorner, TileDescriptor,
};
use rdp_words::{Answer, Ground, Refusal};

// A list that is accepted: its words, and the hazards after it.
#[derive(Clone, Copy, Debug, PartialEq, Eq)]
pub struct Accepted {
    pub words: u32,
    pub hazards: u8,
}

// The first refusal of a list; its place in words; the hazards there; and the place of the command that caused it, at 7, 8 and 9, at every other ground the
// list's whole words.
#[derive(Clone, Copy, Debug, PartialEq, Eq)]
pub struct Refused {
    pub ground: Ground,
    pub place: u32,
    pub hazards: u8,
    pub cause: usize,
}

impl From<Refused> for Refusal {
    ghost from_gives = { λ r refusal. refusal ≡ refusal_in r };

    fn from(refused: Refused) -> Refusal {
        Refusal {
            ground: refused.ground,
            place: refused.place,
        }
    }
}

// Where a list stands between two of its commands, as far as the check reads it: the words that last set the other modes, the colour image and the scissor,
// 0 where none has come; the hazards, of which the low four bits count; and whether a Sync Full has come.
#[repr(C)]
#[derive(Clone, Copy)]
pub struct Checkpoint {
    pub other_modes: u64,
    pub color_image: u64,
    pub scissor: u64,
    pub hazards: u8,
    pub ended: bool,
}

// Of some commands the place after the last, or the first refusal; and the hazards and whether a Sync Full has come there.
#[derive(Clone, Copy)]
pub struct Judged {
    pub outcome: Answer,
    pub hazards: u8,
    pub ended: bool,
}

// A register: its value, and whether the list has set it. No Option, since document 01 has registers start at zero and not set: `no_registers` and `none-set`
// state the value of a register that is not set.
#[derive(Clone, Copy)]
pub struct Register<T> {
    pub set: bool,
    pub value: T,
}

// The texels of a tile: its first corner, and its last.
#[derive(Clone, Copy)]
pub struct TileSize {
    pub upper_left: TexelCorner,
    pub lower_right: TexelCorner,
}

#[derive(Clone, Copy)]
pub struct Tile {
    pub descriptor: Register<TileDescriptor>,
    pub size: Register<TileSize>,
}

#[derive(Clone, Copy)]
pub struct Colors {
    pub fill: Register<u32>,
    pub fog: Register<Color>,
    pub blend: Register<Color>,
    pub primitive: Register<PrimitiveColor>,
    pub environment: Register<Color>,
}

#[derive(Clone, Copy)]
pub struct Combiner {
    pub combine: Register<u64>,
    pub key_gb: Register<KeyGb>,
    pub key_r: Register<KeyR>,
    pub convert: Register<Convert>,
}

#[derive(Clone, Copy)]
pub struct Modes {
    pub other: Register<OtherModes>,
    pub depth: Register<PrimitiveDepth>,
    pub scissor: Register<Scissor>,
}

#[derive(Clone, Copy)]
pub struct Images {
    pub color: Register<Image>,
    pub texture: Register<Image>,
    pub depth: Register<u32>,
}

#[derive(Clone, Copy)]
pub struct Registers {
    pub colors: Colors,
    pub combiner: Combiner,
    pub modes: Modes,
    pub images: Images,
    pub tiles: [Tile; 8],
}

// What a list may have: so many words, and the bytes of these.
pub const MOST_WORDS: u32 = 4096;

pub const MOST_BYTES: usize = 8 * MOST_WORDS as usize;

// The first refusal of a list, with the hazards there and its cause: 1 and 2 of the list, then 3 to 9 and 19 of its commands in order; its words where none
// holds.
pub fn check(list: &[u8]) -> Result<Accepted, Refused>
    ensures { checked_in list.now result ≡ check_of list.now }
{
    walk::check_within(list, MOST_WORDS as usize, true)
}

// The check that comes before a repair: of at most 2,048 words, and with 7 to 9 passed over.
pub fn check_for_repair(list: &[u8]) -> Result<Accepted, Refused>
    ensures { checked_in list.now result ≡ repair_check_of list.now }
{
    walk::check_within(list, 2048, false)
}

// The first refusal of the whole commands of bytes, 4 to 9 and 19, from a checkpoint on; the place after them where none holds. A command whose words are not
// all there is not looked at. Of more than 32,768 bytes none is judged: 1 at 4,096.
pub fn check_from(before: Checkpoint, bytes: &[u8]) -> Judged
    ensures { judged_in result ≡ check_from before bytes.now }
{
    let hazards = before.hazards;
    if MOST_BYTES < bytes.len() {
        return Judged {
            outcome: Err(Refusal {
                ground: Ground::TooLong,
                place: MOST_WORDS,
            }),
            hazards,
            ended: before.ended,
        };
    }
    let stop = onward::stop_from(before, bytes);
    let place = stop.place;
    let view = stop.view;
    let rest = view.rest;
    let after = onward::hazards_after(place, hazards, view.hazards);
    Judged {
        outcome: stop.outcome(),
        hazards: after,
        ended: rest.ended,
    }
}
