// The refusals of the acts of a list: 10, 11, 17, 12 and 18.
ghost use Rattle.std.specs.Prelude.{[], ◌≡◌, ◌/◌, ◌<◌, ◌≤◌, length};
ghost use Rattle.rdp_words.specs.Grounds.{answered, number_unless};
ghost use Rattle.rdp_check.specs.Commands.{rest_of};
ghost use Rattle.rdp_draw.specs.Draw.{acts_of, fill_act, copy_act};
ghost use Rattle.rdp_draw.specs.Seen.{act_with, act_refusal, first_refusal};

use crate::walk;
use rdp_command::{CopyFields, FillFields};
use rdp_words::{Answer, Ground, Refusal};
use walk::Reached;

// The first refusal of a fill rectangle.
fn fill_refusal(fill: FillFields, start: u64, len: usize) -> Result<(), Ground>
    ensures { number_unless result ≡ act_refusal start len (fill_act fill) }
{
    if fill.cycle_type != 3 {
        return Err(Ground::NotDrawn);
    }
    if fill.image.address % 64 != 0 {
        return Err(Ground::Unaligned);
    }
    if rdp_fill::is_inside(fill, start, len) {
        return Ok(());
    }
    Err(Ground::OutsideMemory)
}

// The first refusal of a texture rectangle.
fn copy_refusal(copy: CopyFields, start: u64, len: usize) -> Result<(), Ground>
    ensures { number_unless result ≡ act_refusal start len (copy_act copy) }
{
    if copy.cycle_type != 2 {
        return Err(Ground::NotDrawn);
    }
    if copy.image.address % 64 != 0 {
        return Err(Ground::Unaligned);
    }
    rdp_texels::copy_refusal(copy, start, len)
}

// The first refusal of an act.
fn refusal_at(
    list: &[u8],
    at: Reached,
    file: &[u64; 32],
    start: u64,
    len: usize,
) -> Result<(), Ground>
    requires { at.place < 4096 }
    ensures { number_unless result ≡ act_refusal start len (act_with file.now list.now at.place at.number) }
{
    if at.number == 0x36 {
        return fill_refusal(walk::fill_at(list, at.place, file), start, len);
    }
    if at.number == 0x24 {
        return copy_refusal(walk::copy_at(list, at.place, file), start, len);
    }
    if at.number == 0x34 {
        return rdp_texels::load_refusal(walk::load_at(list, at.place, file), start, len);
    }
    if at.number == 0x33 {
        return rdp_block::block_refusal(walk::load_at(list, at.place, file), start, len);
    }
    if at.number == 0x30 {
        return Err(Ground::NotRgba16);
    }
    Err(Ground::NotDrawn)
}

// The first refusal of the acts of a list of whole commands, or the number of words.
pub fn first_refusal(list: &[u8], words: usize, start: u64, len: usize) -> Answer
    requires { (words ≡ length list.now / 8) × ((words ≤ 4096) × (rest_of list.now ≡ [])) }
    ensures { answered result ≡ first_refusal start len words (acts_of list.now) }
{
    let mut file = [0u64; 32];
    let mut next = 0;
    // Each act is read with the file as `next_act` leaves it, which an iterator that held the file could not lend beside the act.
    while let Some(reached) = walk::next_act(list, next, &mut file) {
        let place = reached.place;
        if let Err(ground) = refusal_at(list, reached, &file, start, len) {
            return Err(Refusal {
                ground,
                place: place as u32,
            });
        }
        next = place + rdp_words::words_of(reached.number);
    }
    Ok(words as u32)
}
