// What a command of a display list does, and the setting after it.
ghost use Rattle.std.specs.Prelude.{◌≡◌, ◌+◌, ◌≤◌};
ghost use Rattle.f3dex2.specs.Commands.{first_byte, low_half, role_of, count_in, shift_code, masked, modified, setting_by, setting_after, modes_word};
ghost use Rattle.f3dex2.specs.Steps.{modes_only, list_action, modes_action, role_action, action_by};

use crate::*;
use rdp_words::Ground;

// x & ~(((1 << count) - 1) << shift) | bits
fn mask_in(x: u32, shift: u64, count: u64, bits: u32) -> u32
    requires { shift + count ≤ 32 }
    ensures { result ≡ masked x shift count bits }
{
    let mask = ((1u64 << count) - 1) << shift;
    let kept = x as u64 & (0xFFFF_FFFF - mask);
    (kept | bits as u64) as u32
}

// The low 32 bits of a command.
fn low_half(w: u64) -> u32
    ensures { result ≡ low_half w }
{
    (w % 0x1_0000_0000) as u32
}

// How many bits 0xE2 and 0xE3 change, and the place in the word, from its high end, after them.
fn count_in(w: u64) -> u64
    ensures { result ≡ count_in w }
{
    (w >> 32) % 256 + 1
}

fn top_in(w: u64) -> u64
    ensures { result ≡ shift_code w + count_in w }
{
    (w >> 40) % 256 + count_in(w)
}

// A word of the other modes, changed by 0xE2 or 0xE3.
#[tactic(auto, unfolding(crate::specs::Commands::modified))]
fn modify(x: u32, w: u64) -> u32
    ensures { result ≡ modified x w }
{
    let count = count_in(w);
    let top = top_in(w);
    if top <= 32 {
        mask_in(x, 32 - top, count, low_half(w))
    } else {
        x
    }
}

// The two words of the other modes, where no half-word is due.
fn modes(high: u32, low: u32) -> Setting
    ensures { result ≡ modes_only high low }
{
    Setting {
        high,
        low,
        due: Due::Command,
    }
}

// The setting after a command, where no half-word is due before it.
fn after_command(s: Setting, w: u64) -> Setting
    ensures { result ≡ setting_by Due.Command s (first_byte w) w }
{
    match w >> 56 {
        0xEF => modes(((w >> 32) % 0x100_0000) as u32, low_half(w)),
        0xE3 => modes(modify(s.high, w), s.low),
        0xE2 => modes(s.high, modify(s.low, w)),
        0xE4..=0xE5 => Setting {
            due: Due::FirstHalf,
            ..s
        },
        _ => modes(s.high, s.low),
    }
}

// The setting after a command that is not refused.
#[tactic(auto, unfolding(crate::specs::Commands::setting_after))]
pub fn setting_after(s: Setting, w: u64) -> Setting
    ensures { result ≡ setting_after s w }
{
    match s.due {
        Due::Command => after_command(s, w),
        Due::FirstHalf => Setting {
            due: Due::SecondHalf(low_half(w)),
            ..s
        },
        Due::SecondHalf(_) => modes(s.high, s.low),
    }
}

// 0xDE calls a list or goes to it, with `depth` calls open.
fn list_action(depth: usize, w: u64) -> Result<Action, Ground>
    ensures { result ≡ list_action depth w }
{
    let address = low_half(w) as usize;
    if (w >> 24) % 256 != 0 {
        return Err(Ground::Invalid);
    }
    match (w >> 48) % 256 {
        0 if depth < 8 => Ok(Action::Call(address)),
        1 => Ok(Action::Branch(address)),
        _ => Err(Ground::Invalid),
    }
}

// Set Other Modes of the whole setting.
fn modes_word(s: Setting) -> u64
    ensures { result ≡ modes_word s }
{
    0x2F00_0000_0000_0000 + (s.high % 0x100_0000) as u64 * 0x1_0000_0000 + s.low as u64
}

// 0xE2 and 0xE3 write the setting after them.
fn modes_action(after: Setting, w: u64) -> Result<Action, Ground>
    ensures { result ≡ modes_action after w }
{
    if top_in(w) <= 32 {
        Ok(Action::Write(modes_word(after)))
    } else {
        Err(Ground::Invalid)
    }
}

// What a command does, where no half-word is due, with `depth` calls open; `after` is the setting after it.
#[tactic(auto, unfolding(crate::specs::Commands::role_of))]
fn command_action(after: Setting, depth: usize, w: u64) -> Result<Action, Ground>
    ensures { result ≡ role_action (role_of (first_byte w)) after depth (first_byte w) w }
{
    let number = w >> 56;
    // One test first, which nearly all commands pass: as arms of the match below it makes the row translate of make bench a sixth slower.
    if matches!(number, 0xE4..=0xF0 | 0xF2..=0xFF) {
        if number >= 0xFD && (w >> 24) % 256 != 0 {
            return Err(Ground::Invalid);
        }
        return Ok(Action::Write(w % 0x4000_0000_0000_0000));
    }
    match number {
        0xE2..=0xE3 => modes_action(after, w),
        0xDE => list_action(depth, w),
        0xDF => Ok(Action::End),
        _ => Err(Ground::Unknown),
    }
}

// What a command does, by what is due before it and by its word, with `depth` calls open; `after` is the setting after it.
pub fn action_for(due: Due, after: Setting, depth: usize, w: u64) -> Result<Action, Ground>
    ensures { result ≡ action_by due after depth (first_byte w) w }
{
    match (due, w >> 56) {
        (Due::Command, _) => command_action(after, depth, w),
        (Due::FirstHalf, 0xE1) => Ok(Action::Pass),
        (Due::SecondHalf(half), 0xF1) => Ok(Action::Write(
            half as u64 * 0x1_0000_0000 + low_half(w) as u64,
        )),
        _ => Err(Ground::Unknown),
    }
}
