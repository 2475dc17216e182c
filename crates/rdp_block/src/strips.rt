// A Load Block as a strip of texels, and whether its ends lie inside memory and texture memory.
ghost use Rattle.std.specs.Prelude.{◌≡◌, ◌≤◌};

use rdp_texels::TEXTURE_BYTES;
use rdp_words::Ground;

// The texels of a block, one after the other: texel k at address `address + 2 k` of memory goes to byte `ahead + 2 k` of texture memory, turned by dxt.
// Memory begins at address `start`. The bounds keep every sum and product far from wrapping.
#[derive(Clone, Copy)]
pub struct Block {
    pub address: u64,
    pub start: u64,
    pub ahead: u64,
    pub dxt: u64,
    pub count: u64,
    ghost small: { (address ≤ 68719476736) × (ahead ≤ 524288) × (dxt ≤ 65536) × (count ≤ 65536) },
}

impl Block {
    ghost use Rattle.rdp_words.specs.Grounds.{number_unless};
    ghost use Rattle.rdp_block.specs.Strips.{strip_refusal};
    ghost use Rattle.rdp_block.specs.Views.{stripped};

    // 12, else 18.
    pub fn refusal(self, len: usize) -> Result<(), Ground>
        ensures { number_unless result ≡ strip_refusal (stripped self) len }
    {
        let bytes = 2 * self.count;
        if !rdp_texels::lies_in(self.address, self.address + bytes, self.start, len as u64) {
            return Err(Ground::OutsideMemory);
        }
        if !rdp_texels::lies_in(self.ahead, self.ahead + bytes, 0, TEXTURE_BYTES as u64) {
            return Err(Ground::OutsideTexture);
        }
        Ok(())
    }
}
