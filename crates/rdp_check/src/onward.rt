// The walk from a checkpoint on, over the whole commands of bytes.
ghost use Rattle.std.specs.Prelude.{cond, [], ◌≡◌, ◌≤◌, eqb, length};
ghost use Rattle.rdp_check.specs.Commands.{commands_of};
ghost use Rattle.rdp_check.specs.Check.{check_refusals, judge};
ghost use Rattle.rdp_check.specs.Checkpoint.{state_at};
ghost use Rattle.rdp_words.specs.Grounds.{number_if};
ghost use Rattle.rdp_check.specs.View.{code, view_of, stopped, stop_of, low_of};

use crate::walk::{Rest, Seen, Stop, View};
use crate::{Checkpoint, walk};
use rdp_command::FillWords;
use rdp_words::Ground;

// A register as the walk sees it.
fn code_of(set: bool, special: bool) -> Seen
    ensures { result ≡ code set special }
{
    if set {
        return walk::set_code(special);
    }
    Seen::Unset
}

// What the walk carries beside the hazards, out of the words that last set it.
fn rest_at(before: Checkpoint) -> Rest
    ensures { result ≡ (view_of (state_at before)).rest }
{
    let modes = before.other_modes;
    let image = before.color_image;
    let scissor = before.scissor;
    let fields = rdp_command::fill_fields(
        FillWords {
            modes,
            scissor,
            image,
            color: 0,
        },
        0,
    );
    let color = fields.image;
    let modes_code = code_of(modes != 0, fields.cycle_type == 3);
    let image_code = code_of(image != 0, color.size == 0);
    Rest {
        ended: before.ended,
        modes: modes_code,
        image: image_code,
        scissor: scissor != 0,
    }
}

fn is_cut(refused: Option<Ground>) -> bool
    ensures { result ≡ eqb (number_if refused) 3 }
{
    matches!(refused, Some(Ground::Cut))
}

// A command that is cut is no refusal here.
fn uncut(refused: Option<Ground>) -> Option<Ground>
    ensures { number_if result ≡ cond (eqb (number_if refused) 3) 0 (number_if refused) }
{
    if is_cut(refused) {
        return None;
    }
    refused
}

// Where the walk over the whole words ends.
pub fn stop_from(before: Checkpoint, bytes: &[u8]) -> Stop
    requires { length bytes.now ≤ 32768 }
    ensures { stopped result ≡ stop_of (judge check_refusals (low_of (state_at before)) 0 (commands_of bytes.now) []) }
{
    let words = bytes.len() / 8;
    let end = 8 * words;
    let hazards = before.hazards % 16;
    let rest = rest_at(before);
    let caused = walk::walk_on(&bytes[..end], View { hazards, rest }, true, false);
    let stop = caused.stop;
    let refused = uncut(stop.refused);
    let view = stop.view;
    Stop {
        refused,
        place: stop.place,
        view,
    }
}

// The hazards after some words of commands; those before, all eight bits, where there are none.
pub fn hazards_after(words: u32, before: u8, after: u8) -> u8
    ensures { result ≡ cond (eqb words 0) before after }
{
    if words == 0 {
        return before;
    }
    after
}
