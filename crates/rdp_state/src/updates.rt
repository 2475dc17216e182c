// The registers as the words that last set them: after the commands of a list, and their fields out of the words.
ghost use Rattle.std.specs.Prelude.{not, ◌≡◌, ◌<◌, eqb, IfSome};
ghost use Rattle.rdp_hazards.specs.Syncs.{command_wait};
ghost use Rattle.rdp_command.specs.Reads.{color_fields, combiner_fields, mode_fields, image_fields};
ghost use Rattle.rdp_check.specs.Commands.{commands_of};
ghost use Rattle.rdp_state.specs.RegisterWords.{slot_of, tile_in, set_if, tile_with, tile_by, is_set, word, colors_by, combiner_by, modes_by, images_by, tiles_by, registers_in};
ghost use Rattle.rdp_state.specs.Replay.{slot_row, slot_entry, set_slot, words_up_to, waited_up_to, register_words};

use crate::{Replay, slots};
use rdp_check::*;
use rdp_command::{ColorFields, CombinerFields, ImageFields, ModeFields, RegisterWords};
use rdp_hazards::Sync;

// The slots of eight command numbers, a byte for each: a slot, and 32 more where the tile counts. Slot 31 stands for none. By a `match` on the number the
// registers of 4,096 setters take half as long again (`make bench`): its jump is not foretold.
const SLOTS_28: u64 = 0x0504_0302_0100_1F1F;

const SLOTS_30: u64 = 0x061F_2F37_3737_1F37;

const SLOTS_38: u64 = 0x0E0D_0C0B_0A09_0807;

const NO_SLOTS: u64 = 0x1F1F_1F1F_1F1F_1F1F;

// The slots of eight numbers, by their eighth.
#[tactic(auto, unfolding(crate::specs::Replay::slot_row))]
fn slot_row(eight: u8) -> u64
    ensures { result ≡ slot_row eight }
{
    match eight {
        5 => SLOTS_28,
        6 => SLOTS_30,
        7 => SLOTS_38,
        _ => NO_SLOTS,
    }
}

// The slot of a command, and 32 more where the tile counts.
fn slot_entry(number: u8) -> u8
    ensures { result ≡ slot_entry number }
{
    let row = slot_row(number / 8);
    ((row >> (8 * (number % 8))) % 256) as u8
}

// The slot of a command's word, where it sets a register.
pub fn slot_of(number: u8, w: u64) -> Option<usize>
    requires { number < 64 }
    ensures is { result ≡ set_slot (slot_of number (tile_in w)) }
    ensures small { IfSome result (λ slot. slot < 31) }
{
    let entry = slot_entry(number);
    let tile = crate::tile_in(w) as u8;
    let slot = (entry % 32 + entry / 32 * tile) as usize;
    if slot == slots::NONE {
        return None;
    }
    Some(slot)
}

// The cycles that a command waits, by its number.
#[tactic(auto, unfolding(rdp_hazards::specs::Syncs::command_wait))]
fn wait_of(number: u8) -> u32
    ensures { result ≡ command_wait number }
{
    match number {
        rdp_hazards::SYNC_LOAD => Sync::Load.wait(),
        rdp_hazards::SYNC_TILE => Sync::Tile.wait(),
        rdp_hazards::SYNC_PIPE => Sync::Pipe.wait(),
        _ => 0,
    }
}

// What the commands of a list that begin before a place leave.
pub fn replay_from(file: [u64; 32], before: u32, list: &[u8], end: usize) -> Replay
    ensures { (result.words ≡ words_up_to end 0 file (commands_of list.now)) × (result.waited ≡ waited_up_to end 0 before (commands_of list.now)) }
{
    let count = list.len() / 8;
    let mut replay = Replay {
        words: file,
        waited: before,
    };
    let mut at: usize = 0;
    // No range has a command's own length as its step. By `rdp_check::Commands` the compiler knows that the word is there and reads it byte by byte: the
    // registers' rows take half as long again.
    while at < end {
        let number = rdp_command::head_at(list, at).number;
        let next = at + rdp_words::words_of(number);
        if count < next {
            return replay;
        }
        crate::store(&mut replay.words, number, rdp_words::word_at(list, at));
        replay.waited = replay.waited.wrapping_add(wait_of(number));
        at = next;
    }
    replay
}

// The words of the registers but the tiles.
fn words_in(file: &[u64; 32]) -> RegisterWords
    ensures { result ≡ register_words file.now }
{
    RegisterWords {
        key_gb: file[slots::KEY_GB],
        key_r: file[slots::KEY_R],
        convert: file[slots::CONVERT],
        scissor: file[slots::SCISSOR],
        primitive_depth: file[slots::PRIMITIVE_DEPTH],
        other_modes: file[slots::OTHER_MODES],
        fill_color: file[slots::FILL_COLOR],
        fog_color: file[slots::FOG_COLOR],
        blend_color: file[slots::BLEND_COLOR],
        primitive_color: file[slots::PRIMITIVE_COLOR],
        environment_color: file[slots::ENVIRONMENT_COLOR],
        combine_mode: file[slots::COMBINE_MODE],
        texture_image: file[slots::TEXTURE_IMAGE],
        depth_image: file[slots::DEPTH_IMAGE],
        color_image: file[slots::COLOR_IMAGE],
    }
}

// A register by the word that last set it, which is 0 where none has.
fn register<T>(word: u64, value: T) -> Register<T>
    ensures { result ≡ set_if (not (eqb word 0)) value }
{
    Register {
        set: word != 0,
        value,
    }
}

// Each group of registers has the fields of its words.

fn colors_of(file: &[u64; 32], fields: ColorFields) -> Colors
    requires { fields ≡ color_fields (register_words file.now) }
    ensures { result ≡ colors_by (is_set file.now) (word file.now) }
{
    Colors {
        fill: register(file[slots::FILL_COLOR], fields.fill),
        fog: register(file[slots::FOG_COLOR], fields.fog),
        blend: register(file[slots::BLEND_COLOR], fields.blend),
        primitive: register(file[slots::PRIMITIVE_COLOR], fields.primitive),
        environment: register(file[slots::ENVIRONMENT_COLOR], fields.environment),
    }
}

fn combiner_of(file: &[u64; 32], fields: CombinerFields) -> Combiner
    requires { fields ≡ combiner_fields (register_words file.now) }
    ensures { result ≡ combiner_by (is_set file.now) (word file.now) }
{
    Combiner {
        combine: register(file[slots::COMBINE_MODE], fields.combine),
        key_gb: register(file[slots::KEY_GB], fields.key_gb),
        key_r: register(file[slots::KEY_R], fields.key_r),
        convert: register(file[slots::CONVERT], fields.convert),
    }
}

fn modes_of(file: &[u64; 32], fields: ModeFields) -> Modes
    requires { fields ≡ mode_fields (register_words file.now) }
    ensures { result ≡ modes_by (is_set file.now) (word file.now) }
{
    Modes {
        other: register(file[slots::OTHER_MODES], fields.other),
        depth: register(file[slots::PRIMITIVE_DEPTH], fields.depth),
        scissor: register(file[slots::SCISSOR], fields.scissor),
    }
}

fn images_of(file: &[u64; 32], fields: ImageFields) -> Images
    requires { fields ≡ image_fields (register_words file.now) }
    ensures { result ≡ images_by (is_set file.now) (word file.now) }
{
    Images {
        color: register(file[slots::COLOR_IMAGE], fields.color),
        texture: register(file[slots::TEXTURE_IMAGE], fields.texture),
        depth: register(file[slots::DEPTH_IMAGE], fields.depth),
    }
}

// A tile by the words of its descriptor and its size.
fn tile_of(descriptor: u64, size: u64) -> Tile
    ensures { result ≡ tile_with (not (eqb descriptor 0)) descriptor (not (eqb size 0)) size }
{
    let fields = rdp_command::tile_fields(descriptor, size);
    let area = fields.area;
    let corners = TileSize {
        upper_left: area.upper_left,
        lower_right: area.lower_right,
    };
    Tile {
        descriptor: register(descriptor, fields.descriptor),
        size: register(size, corners),
    }
}

// The tile of a number.
fn tile_at(file: &[u64; 32], t: usize) -> Tile
    requires { t < 8 }
    ensures { result ≡ tile_by (is_set file.now) (word file.now) t }
{
    tile_of(file[slots::TILES + t], file[slots::TILE_SIZES + t])
}

// One by one: by `from_fn` the eight are moved four times more, each time by a call of `memcpy`.
fn tiles_of(file: &[u64; 32]) -> [Tile; 8]
    ensures { result ≡ tiles_by (is_set file.now) (word file.now) }
{
    [
        tile_at(file, 0),
        tile_at(file, 1),
        tile_at(file, 2),
        tile_at(file, 3),
        tile_at(file, 4),
        tile_at(file, 5),
        tile_at(file, 6),
        tile_at(file, 7),
    ]
}

// The registers of the words.
#[tactic(auto, unfolding(crate::specs::RegisterWords::registers_by))]
pub fn registers_of(file: &[u64; 32]) -> Registers
    ensures { result ≡ registers_in file.now }
{
    let fields = rdp_command::register_fields(words_in(file));
    let colors = colors_of(file, fields.colors);
    let combiner = combiner_of(file, fields.combiner);
    let modes = modes_of(file, fields.modes);
    let images = images_of(file, fields.images);
    let tiles = tiles_of(file);
    Registers {
        colors,
        combiner,
        modes,
        images,
        tiles,
    }
}
