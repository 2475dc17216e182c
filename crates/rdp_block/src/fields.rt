// The texels of a Load Block, by its fields.
ghost use Rattle.std.specs.Prelude.{◌≡◌, suc, ◌+◌, ◌-◌, ◌*◌, ◌≤◌};
ghost use Rattle.rdp_texels.specs.Texels.{texel_address};
ghost use Rattle.rdp_block.specs.Block.{block_count, block_needs};
ghost use Rattle.rdp_block.specs.Strips.{strip_of};
ghost use Rattle.rdp_block.specs.Views.{stripped};

use crate::strips::Block;
use rdp_command::LoadFields;

// The texels from the first to the last.
fn count_of(first: u16, last: u16) -> u64
    ensures { (result ≡ suc last - first) × (result ≤ 65536) }
{
    (last as u64 + 1).saturating_sub(first as u64)
}

// 17: what a Load Tile needs, and 1 to 2,048 texels.
#[tactic(auto, unfolding(crate::specs::Block::block_needs))]
pub fn block_needs(load: LoadFields) -> bool
    ensures { result ≡ block_needs load }
{
    let count = count_of(load.area.upper_left.s, load.area.lower_right.s);
    rdp_texels::load_needs(load) & ((1 <= count) & (count <= 2048))
}

fn texel_address(address: u32, width: u16, s: u16, t: u16) -> u64
    ensures { (result ≡ texel_address address width s t) × (result ≤ 68719476736) }
{
    address as u64 + (t as u64 * (width as u64 + 1) + s as u64) * 2
}

// The texels of a load, in memory that begins at address `start`.
pub fn of_load(load: LoadFields, start: u64) -> Block
    ensures { stripped result ≡ strip_of start load }
{
    let near = load.area.upper_left;
    let far = load.area.lower_right;
    Block {
        address: texel_address(load.image.address, load.image.width, near.s, near.t),
        start,
        ahead: 8 * (load.tile.address as u64),
        dxt: far.t as u64,
        count: count_of(near.s, far.s),
    }
}
