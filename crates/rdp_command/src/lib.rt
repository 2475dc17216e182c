// Decoding of the display processor's commands, and the fields that other layers read of their words.
#![tactic(auto)]

ghost use Rattle.std.specs.Prelude.{◌≡◌};
ghost use Rattle.rdp_words.specs.Words.{word_at};
ghost use Rattle.rdp_command.specs.Decode.{decode_of, decoded, command_or};
ghost use Rattle.rdp_command.specs.Reads.{head_of, fill_fields, load_fields, copy_fields, register_fields, tile_fields};

mod decoding;
mod read;
mod registers;
mod words;

use rdp_words::{Ground, Refusal};

// The commands, with their fields in the order of the wiki's bit lines.

// A corner of a rectangle, in quarter pixels.
#[repr(C)]
#[derive(Clone, Copy)]
pub struct Corner {
    pub x: u16,
    pub y: u16,
}

// A corner of an area of texels, in quarter texels; that of a Load Block in whole ones.
#[repr(C)]
#[derive(Clone, Copy)]
pub struct TexelCorner {
    pub s: u16,
    pub t: u16,
}

// A fixed-point number: its signed integer part and its 16-bit fraction.
#[repr(C)]
#[derive(Clone, Copy)]
pub struct Fixed {
    pub i: i16,
    pub f: u16,
}

// An edge of a triangle: the x of a point on it, and the change in x per line.
#[repr(C)]
#[derive(Clone, Copy)]
pub struct Edge {
    pub x: Fixed,
    pub dxdy: Fixed,
}

// The base of a triangle: what follows it, its tile, its heights in quarter pixels, and its edges.
#[repr(C)]
#[derive(Clone, Copy)]
pub struct TriangleBase {
    pub shade: bool,
    pub texture: bool,
    pub zbuffer: bool,
    pub lmajor: bool,
    pub level: u8,
    pub tile: u8,
    pub yl: i16,
    pub ym: i16,
    pub yh: i16,
    pub l: Edge,
    pub h: Edge,
    pub m: Edge,
}

// Texture coordinates of a rectangle's upper left corner, and their change per pixel.
#[repr(C)]
#[derive(Clone, Copy)]
pub struct TextureStep {
    pub s: i16,
    pub t: i16,
    pub dsdx: i16,
    pub dtdy: i16,
}

// A rectangle with its tile and its texture coordinates.
#[repr(C)]
#[derive(Clone, Copy)]
pub struct TexturedRectangle {
    pub lower_right: Corner,
    pub tile: u8,
    pub upper_left: Corner,
    pub step: TextureStep,
}

// Chroma key of green and blue.
#[repr(C)]
#[derive(Clone, Copy)]
pub struct KeyGb {
    pub width_g: u16,
    pub width_b: u16,
    pub center_g: u8,
    pub scale_g: u8,
    pub center_b: u8,
    pub scale_b: u8,
}

// Chroma key of red.
#[repr(C)]
#[derive(Clone, Copy)]
pub struct KeyR {
    pub width_r: u16,
    pub center_r: u8,
    pub scale_r: u8,
}

// Colour conversion constants.
#[repr(C)]
#[derive(Clone, Copy)]
pub struct Convert {
    pub k0: u16,
    pub k1: u16,
    pub k2: u16,
    pub k3: u16,
    pub k4: u16,
    pub k5: u16,
}

// The scissor rectangle, and which lines are kept when field is set.
#[repr(C)]
#[derive(Clone, Copy)]
pub struct Scissor {
    pub upper_left: Corner,
    pub field: bool,
    pub odd: bool,
    pub lower_right: Corner,
}

// Depth of a primitive.
#[repr(C)]
#[derive(Clone, Copy)]
pub struct PrimitiveDepth {
    pub z: u16,
    pub dz: u16,
}

// The modes of texture sampling.
#[repr(C)]
#[derive(Clone, Copy)]
pub struct TextureModes {
    pub persp_tex_en: bool,
    pub detail_tex_en: bool,
    pub sharpen_tex_en: bool,
    pub tex_lod_en: bool,
    pub tlut_en: bool,
    pub tlut_type: bool,
    pub sample_type: bool,
    pub mid_texel: bool,
    pub bi_lerp_0: bool,
    pub bi_lerp_1: bool,
    pub convert_one: bool,
}

// The inputs of the blender, for the first and the second cycle.
#[repr(C)]
#[derive(Clone, Copy)]
pub struct BlenderInputs {
    pub bl_m1a_0: u8,
    pub bl_m1a_1: u8,
    pub bl_m1b_0: u8,
    pub bl_m1b_1: u8,
    pub bl_m2a_0: u8,
    pub bl_m2a_1: u8,
    pub bl_m2b_0: u8,
    pub bl_m2b_1: u8,
}

// The modes of blending, coverage, depth and alpha compare.
#[repr(C)]
#[derive(Clone, Copy)]
pub struct PixelModes {
    pub force_blend: bool,
    pub alpha_cvg_select: bool,
    pub cvg_x_alpha: bool,
    pub z_mode: u8,
    pub cvg_dest: u8,
    pub color_on_cvg: bool,
    pub image_read_en: bool,
    pub z_update_en: bool,
    pub z_compare_en: bool,
    pub antialias_en: bool,
    pub z_source_sel: bool,
    pub dither_alpha_en: bool,
    pub alpha_compare_en: bool,
}

// The other modes. The cycle type is 0 one-cycle, 1 two-cycle, 2 COPY, 3 FILL.
#[repr(C)]
#[derive(Clone, Copy)]
pub struct OtherModes {
    pub atomic_prim: bool,
    pub cycle_type: u8,
    pub texture: TextureModes,
    pub key_en: bool,
    pub rgb_dither_sel: u8,
    pub alpha_dither_sel: u8,
    pub blender: BlenderInputs,
    pub pixel: PixelModes,
}

// An area of texels of a tile.
#[repr(C)]
#[derive(Clone, Copy)]
pub struct TileArea {
    pub upper_left: TexelCorner,
    pub tile: u8,
    pub lower_right: TexelCorner,
}

// The texels of a block.
#[repr(C)]
#[derive(Clone, Copy)]
pub struct Block {
    pub upper_left: TexelCorner,
    pub tile: u8,
    pub lower_right_s: u16,
    pub dxt: u16,
}

// A tile descriptor.
#[repr(C)]
#[derive(Clone, Copy)]
pub struct TileDescriptor {
    pub format: u8,
    pub size: u8,
    pub line: u16,
    pub address: u16,
    pub index: u8,
    pub palette: u8,
    pub clamp_t: bool,
    pub mirror_t: bool,
    pub mask_t: u8,
    pub shift_t: u8,
    pub clamp_s: bool,
    pub mirror_s: bool,
    pub mask_s: u8,
    pub shift_s: u8,
}

// A rectangle by its corners.
#[repr(C)]
#[derive(Clone, Copy)]
pub struct Rectangle {
    pub lower_right: Corner,
    pub upper_left: Corner,
}

// A colour.
#[repr(C)]
#[derive(Clone, Copy)]
pub struct Color {
    pub red: u8,
    pub green: u8,
    pub blue: u8,
    pub alpha: u8,
}

// The primitive colour, with its level of detail.
#[repr(C)]
#[derive(Clone, Copy)]
pub struct PrimitiveColor {
    pub min_level: u8,
    pub prim_lod_frac: u8,
    pub color: Color,
}

// An image in memory. The width is one less than that of the image.
#[repr(C)]
#[derive(Clone, Copy)]
pub struct Image {
    pub format: u8,
    pub size: u8,
    pub width: u16,
    pub address: u32,
}

// What the check reads of a word: its command number, the cycle type of a Set Other Modes and the size of a Set Color Image.
#[repr(C)]
#[derive(Clone, Copy)]
pub struct Head {
    pub number: u8,
    pub cycle_type: u8,
    pub image_size: u8,
}

// The first words of the commands that set what a fill is drawn under: Set Other Modes, Set Scissor, Set Color Image and Set Fill Color. 0 stands
// where none has come: the fields of the word 0 are the registers at the start.
#[repr(C)]
#[derive(Clone, Copy)]
pub struct FillWords {
    pub modes: u64,
    pub scissor: u64,
    pub image: u64,
    pub color: u64,
}

// A fill rectangle with what it is drawn under.
#[repr(C)]
#[derive(Clone, Copy)]
pub struct FillFields {
    pub cycle_type: u8,
    pub rectangle: Rectangle,
    pub scissor: Scissor,
    pub image: Image,
    pub color: u32,
}

// The first words of the commands that set what a Load Tile or a Load Block is done under: Set Texture Image, and the Set Tile of its tile. 0 stands where
// none has come.
#[repr(C)]
#[derive(Clone, Copy)]
pub struct LoadWords {
    pub image: u64,
    pub tile: u64,
}

// A Load Tile or a Load Block with what it is done under; a register is set where its word is not 0. The dxt of a Load Block stands as lower right t.
// Flags beside the fields and no Option: `load_tile` and `load_block` promise their answer for any fields beside a flag that is false.
#[repr(C)]
#[derive(Clone, Copy)]
pub struct LoadFields {
    pub image_set: bool,
    pub image: Image,
    pub tile_set: bool,
    pub tile: TileDescriptor,
    pub area: TileArea,
}

// The first words of the commands that set what a texture rectangle is drawn under: Set Other Modes, Set Scissor, Set Color Image, the Set Tile of its
// tile, and the command that set that tile's size. 0 stands where none has come.
#[repr(C)]
#[derive(Clone, Copy)]
pub struct CopyWords {
    pub modes: u64,
    pub scissor: u64,
    pub image: u64,
    pub tile: u64,
    pub size: u64,
}

// A texture rectangle with what it is drawn under in COPY mode: of its tile, whether the descriptor is set, and the upper left corner. A flag and no Option:
// `copy_rectangle` promises its answer for any descriptor beside a flag that is false.
#[repr(C)]
#[derive(Clone, Copy)]
pub struct CopyFields {
    pub cycle_type: u8,
    pub rectangle: TexturedRectangle,
    pub tile_set: bool,
    pub tile: TileDescriptor,
    pub tile_corner: TexelCorner,
    pub scissor: Scissor,
    pub image: Image,
    pub perspective: bool,
    pub lookup: bool,
    pub alpha_compare: bool,
}

// The first words of the commands that set the registers but the tiles, in the order of their numbers. 0 stands where none has come.
#[repr(C)]
#[derive(Clone, Copy)]
pub struct RegisterWords {
    pub key_gb: u64,
    pub key_r: u64,
    pub convert: u64,
    pub scissor: u64,
    pub primitive_depth: u64,
    pub other_modes: u64,
    pub fill_color: u64,
    pub fog_color: u64,
    pub blend_color: u64,
    pub primitive_color: u64,
    pub environment_color: u64,
    pub combine_mode: u64,
    pub texture_image: u64,
    pub depth_image: u64,
    pub color_image: u64,
}

// The colours of the registers.
#[repr(C)]
#[derive(Clone, Copy)]
pub struct ColorFields {
    pub fill: u32,
    pub fog: Color,
    pub blend: Color,
    pub primitive: PrimitiveColor,
    pub environment: Color,
}

// The colour combiner, chroma key and conversion.
#[repr(C)]
#[derive(Clone, Copy)]
pub struct CombinerFields {
    pub combine: u64,
    pub key_gb: KeyGb,
    pub key_r: KeyR,
    pub convert: Convert,
}

// The other modes, the primitive depth and the scissor.
#[repr(C)]
#[derive(Clone, Copy)]
pub struct ModeFields {
    pub other: OtherModes,
    pub depth: PrimitiveDepth,
    pub scissor: Scissor,
}

// The colour, texture and depth images.
#[repr(C)]
#[derive(Clone, Copy)]
pub struct ImageFields {
    pub color: Image,
    pub texture: Image,
    pub depth: u32,
}

// The fields of the registers but the tiles.
#[repr(C)]
#[derive(Clone, Copy)]
pub struct RegisterFields {
    pub colors: ColorFields,
    pub combiner: CombinerFields,
    pub modes: ModeFields,
    pub images: ImageFields,
}

// The fields of a tile: its descriptor, and the area that sets its size.
#[repr(C)]
#[derive(Clone, Copy)]
pub struct TileFields {
    pub descriptor: TileDescriptor,
    pub area: TileArea,
}

// A decoded command.
#[derive(Clone, Copy)]
pub enum Command {
    // A no operation keeps its number, 0x00 where it was decoded.
    NoOperation(u8),
    FillTriangle(TriangleBase),
    TextureRectangle(TexturedRectangle),
    TextureRectangleFlip(TexturedRectangle),
    SyncLoad,
    SyncPipe,
    SyncTile,
    SyncFull,
    SetKeyGb(KeyGb),
    SetKeyR(KeyR),
    SetConvert(Convert),
    SetScissor(Scissor),
    SetPrimitiveDepth(PrimitiveDepth),
    SetOtherModes(OtherModes),
    LoadTlut(TileArea),
    SetTileSize(TileArea),
    LoadBlock(Block),
    LoadTile(TileArea),
    SetTile(TileDescriptor),
    FillRectangle(Rectangle),
    SetFillColor(u32),
    SetFogColor(Color),
    SetBlendColor(Color),
    SetPrimitiveColor(PrimitiveColor),
    SetEnvironmentColor(Color),
    SetCombineMode(u64),
    SetTextureImage(Image),
    SetDepthImage(u32),
    SetColorImage(Image),
    // A number that document 02 (#107) leaves unassigned; it keeps it.
    Unassigned(u8),
}

// The number of a command and its words before the suffix; those that it does not have are 0.
#[derive(Clone, Copy)]
pub struct Base {
    pub number: u8,
    pub w0: u64,
    pub w1: u64,
    pub w2: u64,
    pub w3: u64,
}

// What the check reads of the word at a place.
pub fn head_at(list: &[u8], place: usize) -> Head
    ensures { result ≡ head_of (word_at list.now place) }
{
    let w = rdp_words::word_at(list, place);
    Head {
        number: rdp_words::number_in(w),
        cycle_type: read::cycle_type(w),
        image_size: read::image_size(w),
    }
}

// A fill rectangle by its word, with the fields of the words that set what it is drawn under.
pub fn fill_fields(set: FillWords, rectangle: u64) -> FillFields
    ensures { result ≡ fill_fields set rectangle }
{
    FillFields {
        cycle_type: read::cycle_type(set.modes),
        rectangle: read::rectangle(rectangle),
        scissor: read::scissor(set.scissor),
        image: read::color_image(set.image),
        color: read::fill_color(set.color),
    }
}

// A Load Tile or a Load Block by its word, with the fields of the words that set what it is done under.
pub fn load_fields(set: LoadWords, load: u64) -> LoadFields
    ensures { result ≡ load_fields set load }
{
    LoadFields {
        image_set: set.image != 0,
        image: read::image(set.image),
        tile_set: set.tile != 0,
        tile: read::tile_descriptor(set.tile),
        area: read::tile_area(load),
    }
}

// A texture rectangle by its two words, with the fields of the words that set what it is drawn under.
pub fn copy_fields(set: CopyWords, first: u64, second: u64) -> CopyFields
    ensures { result ≡ copy_fields set first second }
{
    let size = read::tile_area(set.size);
    let tile_corner = size.upper_left;
    CopyFields {
        cycle_type: read::cycle_type(set.modes),
        rectangle: read::textured_rectangle(first, second),
        tile_set: set.tile != 0,
        tile: read::tile_descriptor(set.tile),
        tile_corner,
        scissor: read::scissor(set.scissor),
        image: read::color_image(set.image),
        perspective: read::perspective(set.modes),
        lookup: read::lookup(set.modes),
        alpha_compare: read::alpha_compare(set.modes),
    }
}

// The fields of the registers but the tiles, from the words that set them.
pub fn register_fields(words: RegisterWords) -> RegisterFields
    ensures { result ≡ register_fields words }
{
    RegisterFields {
        colors: registers::colors(words),
        combiner: registers::combiner(words),
        modes: registers::modes(words),
        images: registers::images(words),
    }
}

// The fields of a tile, from the words that set its descriptor and its size.
pub fn tile_fields(descriptor: u64, size: u64) -> TileFields
    ensures { result ≡ tile_fields descriptor size }
{
    TileFields {
        descriptor: read::tile_descriptor(descriptor),
        area: read::tile_area(size),
    }
}

// The command of a base, or the refusal where there is none. A match: by `map` and `ok_or` the command is moved twice more, and comparing lists of which every
// command differs takes a quarter longer.
pub fn command_or<E: Drop>(base: Option<Base>, refusal: E) -> Result<Command, E>
    ensures { result ≡ command_or base refusal }
{
    match base {
        Some(whole) => Ok(decoding::command_in(whole)),
        None => Err(refusal),
    }
}

// The first command of a list, or 3 at 0 where its words are not all there. Bytes beyond its words are not read.
pub fn decode(list: &[u8]) -> Result<Command, Refusal>
    ensures { decoded result ≡ decode_of list.now }
{
    let cut = Refusal {
        ground: Ground::Cut,
        place: 0,
    };
    command_or(decoding::first_command(list), cut)
}
