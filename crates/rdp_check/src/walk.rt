// The walk over a list's commands that finds the first refusal.
ghost use Rattle.std.specs.Prelude.{cond, true, ◌≡◌, ◌*◌, ◌%◌, ◌^◌, ◌<◌, ◌≤◌, length};
ghost use Rattle.rdp_words.specs.Grounds.{answered, number_if};
ghost use Rattle.rdp_hazards.specs.Hazards.{entry_of};
ghost use Rattle.rdp_check.specs.Check.{start, outcome_within, checked, checked_in};
ghost use Rattle.rdp_check.specs.View.{refusals_by, code, is_set, is_special, view_of, rest_after, rest_refusal, own_refusal, missing, refusal_with, Watches, AdvancedIs, stopped, stop_at, judged_view, caused, caused_by};

use crate::{Accepted, Refused, cause, hazards};
use rdp_command::Head;
use rdp_hazards::{StepTable, table};
use rdp_words::{Answer, Ground, Refusal};

// Command numbers, a bit for each: the commands that set what the walk carries beside the hazards (Sync Full, Set Scissor, Set Other Modes, Set Color
// Image) with the unassigned numbers, these and the draws, and all commands.
const WATCHED: u64 = 0x8000_A200_0000_0000 | rdp_words::UNASSIGNED;

const WATCHED_AND_DRAWS: u64 = WATCHED | rdp_words::DRAWS;

const ALL: u64 = 0xFFFF_FFFF_FFFF_FFFF;

// A register that a draw needs: special where it is set to what the other must not meet, FILL mode or a colour image of 4 bits.
#[derive(Clone, Copy)]
pub enum Seen {
    Unset,
    Plain,
    Special,
}

impl Seen {
    fn is_set(self) -> bool
        ensures { result ≡ is_set self }
    {
        !matches!(self, Seen::Unset)
    }

    fn is_special(self) -> bool
        ensures { result ≡ is_special self }
    {
        matches!(self, Seen::Special)
    }
}

// What few commands change of what the walk carries: whether a Sync Full has come; the modes; the colour image; and whether the scissor is set.
#[derive(Clone, Copy)]
pub struct Rest {
    pub ended: bool,
    pub modes: Seen,
    pub image: Seen,
    pub scissor: bool,
}

// What the walk carries from command to command.
#[derive(Clone, Copy)]
pub struct View {
    pub hazards: u8,
    pub rest: Rest,
}

// The refusal of a command, its words, and the view after it.
#[derive(Clone, Copy)]
pub struct Advanced {
    pub refusal: Option<Ground>,
    pub words: usize,
    pub view: View,
}

// Where a walk ends: the refusal, if there is one; its place; and what is carried there.
#[derive(Clone, Copy)]
pub struct Stop {
    pub refused: Option<Ground>,
    pub place: u32,
    pub view: View,
}

impl Stop {
    // The place, or the refusal.
    pub fn outcome(self) -> Answer
        ensures { answered result ≡ record { number = number_if self.refused; place = self.place } }
    {
        match self.refused {
            None => Ok(self.place),
            Some(ground) => Err(Refusal {
                ground,
                place: self.place,
            }),
        }
    }
}

// Where a walk ends, and the cause of a refusal by 7, 8 or 9.
#[derive(Clone, Copy)]
pub struct Caused {
    pub stop: Stop,
    pub cause: usize,
}

// 7, 8 or 9 where a sync is required: 1 Load, 2 Tile, 3 Pipe, since the table of document 01 has numbers.
fn missing(required: u8) -> Option<Ground>
    requires { required ≤ 3 }
    ensures { number_if result ≡ missing required }
{
    match required {
        1 => Some(Ground::LoadMissing),
        2 => Some(Ground::TileMissing),
        3 => Some(Ground::PipeMissing),
        _ => None,
    }
}

// The first refusal of a command: 4, then 19 or its refusal as a draw, then a missing sync.
fn refusal(ended: bool, own: Option<Ground>, required: u8) -> Option<Ground>
    requires { required ≤ 3 }
    ensures { number_if result ≡ refusal_with ended (number_if own) required }
{
    if ended {
        return Some(Ground::AfterSyncFull);
    }
    match own {
        Some(_) => own,
        None => missing(required),
    }
}

// The rest before the first command: nothing is set.
fn no_rest() -> Rest
    ensures { result ≡ (view_of start).rest }
{
    Rest {
        ended: false,
        modes: Seen::Unset,
        image: Seen::Unset,
        scissor: false,
    }
}

// A register that is set.
pub fn set_code(special: bool) -> Seen
    ensures { result ≡ code true special }
{
    if special {
        return Seen::Special;
    }
    Seen::Plain
}

// The refusal of a draw.
fn draw_refusal(rest: Rest) -> Option<Ground>
    ensures { number_if result ≡ rest_refusal rest }
{
    if !((rest.modes.is_set() & rest.image.is_set()) & rest.scissor) {
        return Some(Ground::Unset);
    }
    if rest.modes.is_special() & rest.image.is_special() {
        return Some(Ground::FillOnFourBits);
    }
    None
}

// The numbers of the commands that the walk has to look into: those that set what it carries, unassigned ones, draws where they are refused, and all after a
// Sync Full.
fn watched_of(rest: Rest) -> u64
    ensures { Watches result rest }
{
    if rest.ended {
        return ALL;
    }
    match draw_refusal(rest) {
        None => WATCHED,
        Some(_) => WATCHED_AND_DRAWS,
    }
}

// The rest after a command.
fn rest_after(rest: Rest, h: Head) -> Rest
    ensures { result ≡ rest_after rest h }
{
    let mut r = rest;
    let number = h.number;
    match number {
        0x29 => {
            r.ended = true;
            return r;
        }
        0x2D => {
            r.scissor = true;
            return r;
        }
        0x2F => {
            r.modes = set_code(h.cycle_type == 3);
            return r;
        }
        0x3F => {
            r.image = set_code(h.image_size == 0);
            return r;
        }
        _ => return r,
    }
}

// The sync that counts as required: none where the walk is not strict.
fn required_if(strict: bool, required: u8) -> u8
    ensures { result ≡ cond strict required 0 }
{
    if strict {
        return required;
    }
    0
}

// What the entry of a command in the table is below where no sync counts as missing: all are where the walk is not strict.
fn clear_below(strict: bool) -> u8
    ensures { result ≡ cond strict 16 0xFF }
{
    if strict {
        return 16;
    }
    0xFF
}

// 19 of an unassigned number, or the refusal of a command as a draw.
fn own_refusal(rest: Rest, number: u8) -> Option<Ground>
    requires { number < 64 }
    ensures { number_if result ≡ own_refusal rest number }
{
    if rdp_words::is_among(rdp_words::UNASSIGNED, number) {
        return Some(Ground::Unassigned);
    }
    if rdp_words::is_among(rdp_words::DRAWS, number) {
        return draw_refusal(rest);
    }
    None
}

// One command, whose entry in the table is given.
fn advance(e: u8, v: View, strict: bool, h: Head) -> Advanced
    requires { (h.number < 64) × (e ≡ entry_of v.hazards h.number) }
    ensures { AdvancedIs strict v h result }
{
    let number = h.number;
    let rest = v.rest;
    let required = required_if(strict, e / 32);
    let found = refusal(rest.ended, own_refusal(rest, number), required);
    let words = rdp_words::words_of(number);
    let after = rest_after(rest, h);
    Advanced {
        refusal: found,
        words,
        view: View {
            hazards: e % 16,
            rest: after,
        },
    }
}

// The end of the walk: a refusal, or none, at a place, with what is carried there.
fn answer(refused: Option<Ground>, place: usize, hazards: u8, rest: Rest) -> Stop
    requires { place ≤ 4096 }
    ensures { stopped result ≡ stop_at (number_if refused) place (record { hazards = hazards; rest = rest }) }
{
    Stop {
        refused,
        place: place as u32,
        view: View { hazards, rest },
    }
}

// The commands of a list of whole words, in order, from a view on: the first refusal, or none at the number of words. Most commands need not be looked into
// and miss no sync: the way that they take touches nothing but the hazards, and not even these where they stay, so that the next command need not wait
// for them.
fn walk(table: &StepTable, list: &[u8], words: usize, view: View, strict: bool) -> Stop
    requires { (length list.now ≡ 8 * words) × ((words ≤ 4096) × (view.hazards < 16)) }
    ensures { stopped result ≡ judged_view strict view 0 list.now }
{
    let mut hazards = view.hazards;
    let mut rest = view.rest;
    let mut watched = watched_of(rest);
    let clear = clear_below(strict);
    let mut at: usize = 0;
    // No range has a command's own length as its step, and `Commands` ends at a cut command where this loop answers 3 with what is carried there.
    while at < words {
        let head = rdp_command::head_at(list, at);
        let number = head.number;
        let e = hazards::entry(table, hazards, number);
        if (e < clear) & !rdp_words::is_among(watched, number) {
            if !rdp_words::is_among(rdp_words::LONG, number) {
                at += 1;
                if e == hazards {
                    continue;
                }
                hazards = rdp_hazards::hazards::next(&table.entries, hazards, number);
                continue;
            }
            let count = rdp_words::words_of(number);
            if words - at < count {
                return answer(Some(Ground::Cut), at, hazards, rest);
            }
            hazards = rdp_hazards::hazards::next(&table.entries, hazards, number);
            at += count;
            continue;
        }
        let advanced = advance(e, View { hazards, rest }, strict, head);
        let count = advanced.words;
        if words - at < count {
            return answer(Some(Ground::Cut), at, hazards, rest);
        }
        if let Some(ground) = advanced.refusal {
            return answer(Some(ground), at, hazards, rest);
        }
        let next = advanced.view;
        hazards = next.hazards;
        rest = next.rest;
        watched = watched_of(rest);
        at += count;
    }
    answer(None, words, hazards, rest)
}

// The walk over a list of whole words from a view on; where they are the whole list, also the cause of a refusal by 7, 8 or 9. The one place that calls the
// walk, which the compiler then puts here: the check, the repair and the portions all come by.
pub fn walk_on(list: &[u8], view: View, strict: bool, whole: bool) -> Caused
    requires { (length list.now % 8 ≡ 0) × ((length list.now ≤ 32768) × ((view.hazards < 16) × (whole ≡ true → view ≡ view_of start))) }
    ensures { caused result ≡ caused_by whole list.now (judged_view strict view 0 list.now) }
{
    let words = list.len() / 8;
    let table = table::step_table();
    let stop = walk(&table, list, words, view, strict);
    let cause = cause::cause_of(list, stop.refused, stop.place, whole);
    Caused { stop, cause }
}

// A list of which no command is judged.
fn unjudged(ground: Ground, place: usize, words: usize) -> Refused
    requires { place < 2 ^ 32 }
    ensures { result ≡ record { ground = ground; place = place; hazards = 0; cause = words } }
{
    Refused {
        ground,
        place: place as u32,
        hazards: 0,
        cause: words,
    }
}

// The first refusal of a list that may have so many words, with its cause: 1 and 2 of the list, then those of its commands. `strict` is a flag and no closure:
// one walk serves both checks, and a closure would be called at each command.
pub fn check_within(list: &[u8], most: usize, strict: bool) -> Result<Accepted, Refused>
    requires { most ≤ 4096 }
    ensures { checked_in list.now result ≡ checked list.now (outcome_within most (refusals_by strict) list.now) }
{
    let len = list.len();
    let words = len / 8;
    if 8 * most < len {
        return Err(unjudged(Ground::TooLong, most, words));
    }
    if len % 8 != 0 {
        return Err(unjudged(Ground::NotWords, words, words));
    }
    let rest = no_rest();
    let caused = walk_on(list, View { hazards: 0, rest }, strict, true);
    let stop = caused.stop;
    let hazards = stop.view.hazards;
    match stop.refused {
        None => Ok(Accepted {
            words: stop.place,
            hazards,
        }),
        Some(ground) => Err(Refused {
            ground,
            place: stop.place,
            hazards,
            cause: caused.cause,
        }),
    }
}
