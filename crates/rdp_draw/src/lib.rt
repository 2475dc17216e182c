// Drawing of a list into memory: fill rectangles, loads of tiles and blocks, and copy rectangles.
#![tactic(auto)]

ghost use Rattle.std.specs.Prelude.{◌≡◌, length};
ghost use Rattle.rdp_words.specs.Grounds.{answered};
ghost use Rattle.rdp_draw.specs.Draw.{draw_answer, drawn, memories};

mod acting;
mod refusals;
mod walk;

use rdp_words::{Answer, Ground, Refusal};

// Draws a list into memory that starts at address `start`, with texture memory: the refusals 1 to 9 and 19 of the check, then 16, then 10, 11, 17, 12 and 18 of its
// acts, and only then the acts. Answers the number of words where none holds. A refusal leaves every byte of memory and texture memory as it was.
pub fn draw(list: &[u8], memory: &mut [u8], start: u64, texture: &mut [u8]) -> Answer
    ensures answer { answered result ≡ draw_answer list.now start (length memory.old) (length texture.old) }
    ensures memory { memory.new ≡ (drawn list.now start (memories memory.old texture.old)).memory }
    ensures texture { texture.new ≡ (drawn list.now start (memories memory.old texture.old)).texture }
{
    rdp_check::check(list)?;
    if texture.len() != rdp_texels::TEXTURE_BYTES {
        return Err(Refusal {
            ground: Ground::NoTextureMemory,
            place: 0,
        });
    }
    let words = list.len() / 8;
    match refusals::first_refusal(list, words, start, memory.len()) {
        Ok(accepted) => {
            acting::act_all(list, words, memory, start, texture);
            Ok(accepted)
        }
        Err(refusal) => Err(refusal),
    }
}
