// Words that many lists have, with an underscore between fields. Document 01's setup S is FILL, IMAGE, SCISSOR; its C and R are COLOR and RECTANGLE.

pub const FILL: u64 = 0x2F_30_0000_00000000;

pub const ONE_CYCLE: u64 = 0x2F_00_0000_00000000;

// 16 bits, 8 wide, at address 0.
pub const IMAGE: u64 = 0x3F_10_0007_00000000;
// At other addresses.
pub const IMAGE_AT_32: u64 = 0x3F_10_0007_00000020;

pub const IMAGE_AT_64: u64 = 0x3F_10_0007_00000040;
// 7 and 4 wide.
pub const IMAGE_OF_7: u64 = 0x3F_10_0006_00000000;

pub const IMAGE_OF_4: u64 = 0x3F_10_0003_00000000;

// 8 by 4 pixels, and all.
pub const SCISSOR: u64 = 0x2D_000_000_00_020_010;

pub const OPEN: u64 = 0x2D_000_000_00_FFF_FFF;

pub const COLOR: u64 = 0x37_000000_F801003F;

pub const DIGITS: u64 = 0x37_000000_11223344;

// Pixels (1, 1) to (2, 2): the lower right corner stands first.
pub const RECTANGLE: u64 = 0x36_008_008_00_004_004;
// Pixels (0, 0) to (7, 3).
pub const WHOLE: u64 = 0x36_01C_00C_00_000_000;
// Columns 3 to 2 and rows 2 to 1: no pixel.
pub const NO_COLUMN: u64 = 0x36_008_00C_00_00C_000;

pub const NO_ROW: u64 = 0x36_01C_004_00_000_008;

pub const TRIANGLE: u64 = 0x08_00000000000000;

pub const TEXTURE_RECTANGLE: u64 = 0x24_008_008_00_004_004;

pub const LOAD: u64 = 0x34_00000000000000;

pub const SET_TILE: u64 = 0x35_00000000000000;

// Texels of 16 bits, 8 wide, at address 0; a tile of such texels, 16 bytes a row; its load from (0, 0) to (7, 3).
pub const TEXTURE: u64 = 0x3D_10_0007_00000000;

pub const TILE: u64 = 0x35_10_0400_00000000;

pub const LOAD_ALL: u64 = 0x34_000_000_00_01C_00C;

// COPY mode; pixels (4, 0) to (7, 3) in it, from the tile's first texel, of which four are taken a clock.
pub const COPY: u64 = 0x2F_20_0000_00000000;

pub const COPY_RIGHT: u64 = 0x24_01C_00C_00_010_000;

pub const TEXELS: u64 = 0x0000_0000_1000_0400;
// From column 1 and row 1, and from row -1.
pub const TEXELS_FROM_1_1: u64 = 0x0020_0020_1000_0400;

pub const TEXELS_ABOVE: u64 = 0x0000_FFE0_1000_0400;

pub const LOAD_SYNC: u64 = 0x26_00000000000000;

pub const PIPE_SYNC: u64 = 0x27_00000000000000;

pub const FULL_SYNC: u64 = 0x29_00000000000000;
