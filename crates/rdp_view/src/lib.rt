// A finished image in memory as RGBA rows.
#![tactic(auto)]

ghost use Rattle.std.specs.Prelude.{◌≡◌, length};
ghost use Rattle.rdp_words.specs.Grounds.{answered};
ghost use Rattle.rdp_view.specs.View.{framebuffer_at, view_answer, view_out};

mod framebuffer;
mod pixels;

use framebuffer::Framebuffer;
use rdp_words::{Answer, Ground, Refusal};

// Writes the pixels of an image (its address, width, height and size number) in memory that starts at an address as rows of red, green, blue and alpha, four
// bytes a pixel. 27 where width, height or size is none; 12 where the image is not all in memory; 14 at the bytes needed; else the bytes written.
pub fn view(
    memory: &[u8],
    start: u64,
    address: u64,
    width: u32,
    height: u32,
    size: u32,
    out: &mut [u8],
) -> Answer
    ensures answer { answered result ≡ view_answer start (length memory.now) (framebuffer_at address width height size) (length out.old) }
    ensures output { out.new ≡ view_out memory.now start (framebuffer_at address width height size) out.old }
{
    let Some(image) = Framebuffer::of(address, width, height, size) else {
        return Err(Refusal {
            ground: Ground::Unviewable,
            place: 0,
        });
    };
    let Some(from) = image.index_in(start, memory.len()) else {
        return Err(Refusal {
            ground: Ground::OutsideMemory,
            place: 0,
        });
    };
    let needed = 4 * image.count;
    let place = needed as u32;
    if out.len() < needed {
        return Err(Refusal {
            ground: Ground::OutputTooShort,
            place,
        });
    }
    pixels::write(&memory[from..], image.size, image.count, out);
    Ok(place)
}
