// Copy mode (#106): Load Tile and texture rectangles in COPY mode, one command each.
#![tactic(auto)]

ghost use Rattle.std.specs.Prelude.{◌≡◌, length};
ghost use Rattle.rdp_words.specs.Grounds.{number_unless};
ghost use Rattle.rdp_texels.specs.Texels.{loaded, copied};
ghost use Rattle.rdp_texels.specs.Load.{load_needs, load_moves};
ghost use Rattle.rdp_texels.specs.Copy.{copy_moves};
ghost use Rattle.rdp_texels.specs.Run.{run_texture};
ghost use Rattle.rdp_texels.specs.Refusals.{sized, load_refusal, copy_refusal, load_texture, copy_memory};

mod bytes;
mod fields;
mod grids;
mod needs;
mod rows;

use bytes::Run;
pub use bytes::move_eight;
pub use grids::lies_in;
use rdp_command::{CopyFields, LoadFields};
use rdp_words::Ground;

// The size of texture memory.
pub const TEXTURE_BYTES: usize = 4096;

// Whether a load's texture image and its tile's descriptor are set and 16-bit RGBA: else 17 refuses it.
#[tactic(auto, unfolding(crate::specs::Load::load_needs))]
pub fn load_needs(load: LoadFields) -> bool
    ensures { result ≡ load_needs load }
{
    let image = load.image_set & needs::is_rgba16(load.image.format, load.image.size);
    let tile = load.tile_set & needs::is_rgba16(load.tile.format, load.tile.size);
    image & tile
}

// The first refusal of a Load Tile, of memory of `len` bytes that starts at address `start`: 17, 12 or 18.
pub fn load_refusal(load: LoadFields, start: u64, len: usize) -> Result<(), Ground>
    ensures { number_unless result ≡ load_refusal load start len }
{
    if !load_needs(load) {
        return Err(Ground::NotRgba16);
    }
    fields::of_load(load, start).refusal(len)
}

// Loads n bytes of memory from index s on to byte d of texture memory on, which exchange the halves of each eight where the row is odd. Where texture
// memory has not 4,096 bytes, or not all of both are there, nothing is loaded.
pub fn load_run(memory: &[u8], s: usize, texture: &mut [u8], d: usize, n: usize, odd: bool)
    ensures { texture.new ≡ run_texture s d n odd memory.now texture.old }
{
    if grids::run_fits(memory.len(), s, texture.len(), d, n) {
        let run = Run { s, d, n, odd };
        bytes::move_run::<true>(memory, texture, run);
        return;
    }
}

// Loads a tile out of memory that starts at address `start`. The refusals are 16, 17, 12 and 18, in this order; they leave texture memory as it was.
pub fn load_tile(
    memory: &[u8],
    start: u64,
    texture: &mut [u8],
    load: LoadFields,
) -> Result<(), Ground>
    ensures answer { number_unless result ≡ sized (length texture.old) (load_refusal load start (length memory.now)) }
    ensures texture { texture.new ≡ load_texture load start memory.now texture.old }
{
    if texture.len() != TEXTURE_BYTES {
        return Err(Ground::NoTextureMemory);
    }
    load_refusal(load, start, memory.len())?;
    rows::move_texels::<true>(memory, texture, fields::of_load(load, start));
    Ok(())
}

// The first refusal of a texture rectangle in COPY mode, on memory of `len` bytes that starts at address `start`: 17, 12 or 18.
pub fn copy_refusal(copy: CopyFields, start: u64, len: usize) -> Result<(), Ground>
    ensures { number_unless result ≡ copy_refusal copy start len }
{
    if !needs::copy_needs(copy) {
        return Err(Ground::NotRgba16);
    }
    fields::of_copy(copy, start).refusal(len)
}

// Draws a texture rectangle in COPY mode into memory that starts at address `start`. The refusals are 16, 17, 12 and 18, in this order; they leave memory as
// it was.
pub fn copy_rectangle(
    texture: &[u8],
    memory: &mut [u8],
    start: u64,
    copy: CopyFields,
) -> Result<(), Ground>
    ensures answer { number_unless result ≡ sized (length texture.now) (copy_refusal copy start (length memory.old)) }
    ensures memory { memory.new ≡ copy_memory copy start texture.now memory.old }
{
    if texture.len() != TEXTURE_BYTES {
        return Err(Ground::NoTextureMemory);
    }
    copy_refusal(copy, start, memory.len())?;
    rows::move_texels::<false>(texture, memory, fields::of_copy(copy, start));
    Ok(())
}
