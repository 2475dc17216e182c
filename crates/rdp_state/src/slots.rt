// The slots of the register file: where the word stands that last set a register.
pub const KEY_GB: usize = 0;

pub const KEY_R: usize = 1;

pub const CONVERT: usize = 2;

pub const SCISSOR: usize = 3;

pub const PRIMITIVE_DEPTH: usize = 4;

pub const OTHER_MODES: usize = 5;

pub const FILL_COLOR: usize = 6;

pub const FOG_COLOR: usize = 7;

pub const BLEND_COLOR: usize = 8;

pub const PRIMITIVE_COLOR: usize = 9;

pub const ENVIRONMENT_COLOR: usize = 10;

pub const COMBINE_MODE: usize = 11;

pub const TEXTURE_IMAGE: usize = 12;

pub const DEPTH_IMAGE: usize = 13;

pub const COLOR_IMAGE: usize = 14;

// The descriptors of the eight tiles from here on, and their sizes.
pub const TILES: usize = 15;

pub const TILE_SIZES: usize = 23;

// The slot of no register.
pub const NONE: usize = 31;
