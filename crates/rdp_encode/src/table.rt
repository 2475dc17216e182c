// The bit lines of every command, in the order of its fields.
ghost use Rattle.std.specs.Prelude.{◌≡◌, map};
ghost use Rattle.rdp_command.specs.Layout.{layout};
ghost use Rattle.rdp_encode.specs.Table.{line_of};

// A bit line: its word, its bits there from the high to the low one, and whether it is in two's complement.
#[derive(Clone, Copy)]
pub struct BitLine {
    pub is_signed: bool,
    pub word: usize,
    pub high: u32,
    pub low: u32,
}

macro_rules! line {
    ($is_signed:literal, $word:literal, $high:literal, $low:literal) => {
        BitLine {
            is_signed: $is_signed,
            word: $word,
            high: $high,
            low: $low,
        }
    };
}

macro_rules! bits {
    ($word:literal, $high:literal, $low:literal) => { line!(false, $word, $high, $low) };
}

macro_rules! signed_bits {
    ($word:literal, $high:literal, $low:literal) => { line!(true, $word, $high, $low) };
}

macro_rules! one_bit {
    ($word:literal, $bit:literal) => { line!(false, $word, $bit, $bit) };
}

// Fill Triangle.
static TRIANGLE: [BitLine; 21] = [
    one_bit!(0, 58),
    one_bit!(0, 57),
    one_bit!(0, 56),
    one_bit!(0, 55),
    bits!(0, 53, 51),
    bits!(0, 50, 48),
    signed_bits!(0, 45, 32),
    signed_bits!(0, 29, 16),
    signed_bits!(0, 13, 0),
    signed_bits!(1, 59, 48),
    bits!(1, 47, 32),
    signed_bits!(1, 29, 16),
    bits!(1, 15, 0),
    signed_bits!(2, 59, 48),
    bits!(2, 47, 32),
    signed_bits!(2, 29, 16),
    bits!(2, 15, 0),
    signed_bits!(3, 59, 48),
    bits!(3, 47, 32),
    signed_bits!(3, 29, 16),
    bits!(3, 15, 0),
];

// Texture Rectangle and Texture Rectangle Flip.
static TEXTURED_RECTANGLE: [BitLine; 9] = [
    bits!(0, 55, 44),
    bits!(0, 43, 32),
    bits!(0, 26, 24),
    bits!(0, 23, 12),
    bits!(0, 11, 0),
    signed_bits!(1, 63, 48),
    signed_bits!(1, 47, 32),
    signed_bits!(1, 31, 16),
    signed_bits!(1, 15, 0),
];

// Set Key GB.
static KEY_GB: [BitLine; 6] = [
    bits!(0, 55, 44),
    bits!(0, 43, 32),
    bits!(0, 31, 24),
    bits!(0, 23, 16),
    bits!(0, 15, 8),
    bits!(0, 7, 0),
];

// Set Key R.
static KEY_R: [BitLine; 3] = [bits!(0, 27, 16), bits!(0, 15, 8), bits!(0, 7, 0)];

// Set Convert.
static CONVERT: [BitLine; 6] = [
    bits!(0, 53, 45),
    bits!(0, 44, 36),
    bits!(0, 35, 27),
    bits!(0, 26, 18),
    bits!(0, 17, 9),
    bits!(0, 8, 0),
];

// Set Scissor.
static SCISSOR: [BitLine; 6] = [
    bits!(0, 55, 44),
    bits!(0, 43, 32),
    one_bit!(0, 25),
    one_bit!(0, 24),
    bits!(0, 23, 12),
    bits!(0, 11, 0),
];

// Set Primitive Depth.
static PRIMITIVE_DEPTH: [BitLine; 2] = [bits!(0, 31, 16), bits!(0, 15, 0)];

// Set Other Modes.
static OTHER_MODES: [BitLine; 37] = [
    one_bit!(0, 55),
    bits!(0, 53, 52),
    one_bit!(0, 51),
    one_bit!(0, 50),
    one_bit!(0, 49),
    one_bit!(0, 48),
    one_bit!(0, 47),
    one_bit!(0, 46),
    one_bit!(0, 45),
    one_bit!(0, 44),
    one_bit!(0, 43),
    one_bit!(0, 42),
    one_bit!(0, 41),
    one_bit!(0, 40),
    bits!(0, 39, 38),
    bits!(0, 37, 36),
    bits!(0, 31, 30),
    bits!(0, 29, 28),
    bits!(0, 27, 26),
    bits!(0, 25, 24),
    bits!(0, 23, 22),
    bits!(0, 21, 20),
    bits!(0, 19, 18),
    bits!(0, 17, 16),
    one_bit!(0, 14),
    one_bit!(0, 13),
    one_bit!(0, 12),
    bits!(0, 11, 10),
    bits!(0, 9, 8),
    one_bit!(0, 7),
    one_bit!(0, 6),
    one_bit!(0, 5),
    one_bit!(0, 4),
    one_bit!(0, 3),
    one_bit!(0, 2),
    one_bit!(0, 1),
    one_bit!(0, 0),
];

// Load TLUT, Set Tile Size, Load Block and Load Tile.
static TILE_AREA: [BitLine; 5] = [
    bits!(0, 55, 44),
    bits!(0, 43, 32),
    bits!(0, 26, 24),
    bits!(0, 23, 12),
    bits!(0, 11, 0),
];

// Set Tile.
static TILE_DESCRIPTOR: [BitLine; 14] = [
    bits!(0, 55, 53),
    bits!(0, 52, 51),
    bits!(0, 49, 41),
    bits!(0, 40, 32),
    bits!(0, 26, 24),
    bits!(0, 23, 20),
    one_bit!(0, 19),
    one_bit!(0, 18),
    bits!(0, 17, 14),
    bits!(0, 13, 10),
    one_bit!(0, 9),
    one_bit!(0, 8),
    bits!(0, 7, 4),
    bits!(0, 3, 0),
];

// Fill Rectangle.
static RECTANGLE: [BitLine; 4] = [
    bits!(0, 55, 44),
    bits!(0, 43, 32),
    bits!(0, 23, 12),
    bits!(0, 11, 0),
];

// Set Fill Color.
static FILL_COLOR: [BitLine; 1] = [bits!(0, 31, 0)];

// Set Fog Color, Set Blend Color and Set Environment Color.
static COLOR: [BitLine; 4] = [
    bits!(0, 31, 24),
    bits!(0, 23, 16),
    bits!(0, 15, 8),
    bits!(0, 7, 0),
];

// Set Primitive Color.
static PRIMITIVE_COLOR: [BitLine; 6] = [
    bits!(0, 47, 40),
    bits!(0, 39, 32),
    bits!(0, 31, 24),
    bits!(0, 23, 16),
    bits!(0, 15, 8),
    bits!(0, 7, 0),
];

// Set Combine Mode.
static COMBINE_MODE: [BitLine; 1] = [bits!(0, 55, 0)];

// Set Texture Image.
static TEXTURE_IMAGE: [BitLine; 4] = [
    bits!(0, 55, 53),
    bits!(0, 52, 51),
    bits!(0, 41, 32),
    bits!(0, 23, 0),
];

// Set Depth Image.
static DEPTH_IMAGE: [BitLine; 1] = [bits!(0, 23, 0)];

// Set Color Image.
static COLOR_IMAGE: [BitLine; 4] = [
    bits!(0, 55, 53),
    bits!(0, 52, 51),
    bits!(0, 41, 32),
    bits!(0, 25, 0),
];

// The bit lines of a command number.
#[tactic(auto, unfolding(rdp_command::specs::Layout::layout))]
pub fn lines_of(number: u8) -> &'static [BitLine]
    ensures { map line_of result.now ≡ layout number }
{
    match number {
        0x08..=0x0F => &TRIANGLE,
        0x24 | 0x25 => &TEXTURED_RECTANGLE,
        0x2A => &KEY_GB,
        0x2B => &KEY_R,
        0x2C => &CONVERT,
        0x2D => &SCISSOR,
        0x2E => &PRIMITIVE_DEPTH,
        0x2F => &OTHER_MODES,
        0x30 | 0x32 | 0x33 | 0x34 => &TILE_AREA,
        0x35 => &TILE_DESCRIPTOR,
        0x36 => &RECTANGLE,
        0x37 => &FILL_COLOR,
        0x38 | 0x39 | 0x3B => &COLOR,
        0x3A => &PRIMITIVE_COLOR,
        0x3C => &COMBINE_MODE,
        0x3D => &TEXTURE_IMAGE,
        0x3E => &DEPTH_IMAGE,
        0x3F => &COLOR_IMAGE,
        _ => &[],
    }
}
