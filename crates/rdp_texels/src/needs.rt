// Refusal 17: what a load and a copy rectangle need.
ghost use Rattle.std.specs.Prelude.{◌≡◌};
ghost use Rattle.rdp_texels.specs.Load.{rgba16};
ghost use Rattle.rdp_texels.specs.Copy.{whole_texels, step_needs, corner_needs, tile_needs, mode_needs, copy_needs};

use rdp_command::{CopyFields, TexelCorner, TextureStep, TileDescriptor};

pub fn is_rgba16(format: u8, size: u8) -> bool
    ensures { result ≡ rgba16 format size }
{
    (format == 0) & (size == 2)
}

// A number of 32nds of a texel is whole.
fn is_whole(z: i16) -> bool
    ensures { result ≡ whole_texels z }
{
    z % 32 == 0
}

fn step_needs(step: TextureStep) -> bool
    ensures { result ≡ step_needs step }
{
    let steps = (step.dsdx == 0x1000) & (step.dtdy == 0x0400);
    (steps & is_whole(step.s)) & is_whole(step.t)
}

fn corner_needs(corner: TexelCorner) -> bool
    ensures { result ≡ corner_needs corner }
{
    (corner.s % 4 == 0) & (corner.t % 4 == 0)
}

fn tile_needs(tile: TileDescriptor) -> bool
    ensures { result ≡ tile_needs tile }
{
    let mirror = !tile.mirror_s & !tile.mirror_t;
    let shift = ((tile.shift_s == 0) & (tile.shift_t == 0)) & mirror;
    ((tile.mask_s == 0) & (tile.mask_t == 0)) & shift
}

#[tactic(auto, unfolding(crate::specs::Copy::copy_needs))]
pub fn copy_needs(copy: CopyFields) -> bool
    ensures { result ≡ copy_needs copy }
{
    let kind = copy.tile_set & is_rgba16(copy.tile.format, copy.tile.size);
    let step = step_needs(copy.rectangle.step) & corner_needs(copy.tile_corner);
    let modes = !copy.perspective & (!copy.lookup & !copy.alpha_compare);
    let tile = tile_needs(copy.tile) & modes;
    (kind & (copy.image.size == 2)) & (step & tile)
}
