// Load Block (#112).
#![tactic(auto)]

ghost use Rattle.std.specs.Prelude.{◌≡◌, length};
ghost use Rattle.rdp_words.specs.Grounds.{number_unless};
ghost use Rattle.rdp_texels.specs.Texels.{loaded};
ghost use Rattle.rdp_texels.specs.Refusals.{sized};
ghost use Rattle.rdp_block.specs.Block.{block_moves, block_refusal, block_texture};

mod fields;
mod loading;
mod strips;

use rdp_command::LoadFields;
use rdp_words::Ground;

// The first refusal of a Load Block, of memory of `len` bytes that starts at address `start`: 17, 12 or 18.
pub fn block_refusal(load: LoadFields, start: u64, len: usize) -> Result<(), Ground>
    ensures { number_unless result ≡ block_refusal load start len }
{
    if !fields::block_needs(load) {
        return Err(Ground::NotRgba16);
    }
    fields::of_load(load, start).refusal(len)
}

// Loads a block out of memory that starts at address `start`. The refusals are 16, 17, 12 and 18, in this order; they leave texture memory as it was.
pub fn load_block(
    memory: &[u8],
    start: u64,
    texture: &mut [u8],
    load: LoadFields,
) -> Result<(), Ground>
    ensures answer { number_unless result ≡ sized (length texture.old) (block_refusal load start (length memory.now)) }
    ensures texture { texture.new ≡ block_texture load start memory.now texture.old }
{
    if texture.len() != rdp_texels::TEXTURE_BYTES {
        return Err(Ground::NoTextureMemory);
    }
    block_refusal(load, start, memory.len())?;
    let block = fields::of_load(load, start);
    let first = loading::load_words(memory, texture, block);
    loading::load_lines(memory, texture, block, first);
    Ok(())
}
