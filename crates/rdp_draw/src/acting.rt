// The acts of a list of which none is refused.
ghost use Rattle.std.specs.Prelude.{[], ◌≡◌, ◌/◌, ◌<◌, ◌≤◌, length};
ghost use Rattle.rdp_check.specs.Commands.{rest_of};
ghost use Rattle.rdp_draw.specs.Draw.{acts_of, memories, acted, acted_all};
ghost use Rattle.rdp_draw.specs.Seen.{act_with, act_refusal, first_refusal};

use crate::walk;
use walk::Reached;

// Does an act that is not refused, a fill, a copy or a load: so what it answers is Ok.
fn act(
    list: &[u8],
    at: Reached,
    file: &[u64; 32],
    memory: &mut [u8],
    start: u64,
    texture: &mut [u8],
)
    requires place_bound { (at.place < 4096) × (length texture.old ≡ 4096) }
    requires number_value { act_refusal start (length memory.old) (act_with file.now list.now at.place at.number) ≡ 0 }
    ensures { memories memory.new texture.new ≡ acted start (act_with file.now list.now at.place at.number) (memories memory.old texture.old) }
{
    if at.number == 0x36 {
        rdp_fill::paint(memory, start, walk::fill_at(list, at.place, file));
        return;
    }
    if at.number == 0x24 {
        let _ = rdp_texels::copy_rectangle(
            texture,
            memory,
            start,
            walk::copy_at(list, at.place, file),
        );
        return;
    }
    let load = walk::load_at(list, at.place, file);
    if at.number == 0x34 {
        let _ = rdp_texels::load_tile(memory, start, texture, load);
        return;
    }
    let _ = rdp_block::load_block(memory, start, texture, load);
}

// Does the acts of a list in order, of which every command is whole and no act is refused.
pub fn act_all(list: &[u8], words: usize, memory: &mut [u8], start: u64, texture: &mut [u8])
    requires words_value { (words ≡ length list.now / 8) × ((words ≤ 4096) × (rest_of list.now ≡ [])) }
    requires texture_len { (length texture.old ≡ 4096) × ((first_refusal start (length memory.old) words (acts_of list.now)).number ≡ 0) }
    ensures { memories memory.new texture.new ≡ acted_all start (acts_of list.now) (memories memory.old texture.old) }
{
    let mut file = [0u64; 32];
    let mut next = 0;
    // Each act is read with the file as `next_act` leaves it, which an iterator that held the file could not lend beside the act.
    while let Some(reached) = walk::next_act(list, next, &mut file) {
        act(list, reached, &file, memory, start, texture);
        next = reached.place + rdp_words::words_of(reached.number);
    }
}
