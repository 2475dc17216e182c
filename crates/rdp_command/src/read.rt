// The group of fields that a word holds, out of the word.
ghost use Rattle.std.specs.Prelude.{◌≡◌, [], ◌∷◌, ◌*◌, ◌<◌, ◌≤◌};
ghost use Rattle.rdp_command.specs.Layout.{edge_lines, triangle_base_lines, texture_step_lines, textured_rectangle_lines, key_gb_lines, key_r_lines, convert_lines, scissor_lines, primitive_depth_lines, texture_modes_lines, blender_inputs_lines, pixel_modes_lines, other_modes_lines, tile_area_lines, block_lines, tile_descriptor_lines, rectangle_lines, color_lines, primitive_color_lines, combine_mode_lines, image_lines, depth_image_lines, color_image_lines};
ghost use Rattle.rdp_command.specs.Fields.{twos_complement, fields_of};
ghost use Rattle.rdp_command.specs.Groups.{nat_at, edge_of, triangle_base_of, texture_step_of, textured_rectangle_of, key_gb_of, key_r_of, convert_of, scissor_of, primitive_depth_of, texture_modes_of, blender_inputs_of, pixel_modes_of, other_modes_of, tile_area_of, block_of, tile_descriptor_of, rectangle_of, color_of, primitive_color_of, image_of};
ghost use Rattle.rdp_command.specs.Reads.{other_modes_in, cycle_type_in, color_image_in, fill_color_in};

use crate::*;

// A two's complement number, where half is 2 to its bits less one.
fn sign_extend(raw: u32, half: u32) -> i16
    requires { (half ≤ 0x8000) × (raw < 2 * half) }
    ensures { result ≡ twos_complement half raw }
{
    if raw < half {
        raw as i16
    } else {
        -1 - ((2 * half - 1 - raw) as i16)
    }
}

pub fn edge(w: u64) -> Edge
    ensures { result ≡ edge_of (fields_of (edge_lines 0) (w ∷ [])) }
{
    Edge {
        x: Fixed {
            i: sign_extend(((w >> 48) % 0x1000) as u32, 0x800),
            f: ((w >> 32) % 0x10000) as u16,
        },
        dxdy: Fixed {
            i: sign_extend(((w >> 16) % 0x4000) as u32, 0x2000),
            f: (w % 0x10000) as u16,
        },
    }
}

pub fn triangle_base(w0: u64, w1: u64, w2: u64, w3: u64) -> TriangleBase
    ensures { result ≡ triangle_base_of (fields_of triangle_base_lines (w0 ∷ w1 ∷ w2 ∷ w3 ∷ [])) }
{
    TriangleBase {
        shade: (w0 >> 58) % 0x2 == 1,
        texture: (w0 >> 57) % 0x2 == 1,
        zbuffer: (w0 >> 56) % 0x2 == 1,
        lmajor: (w0 >> 55) % 0x2 == 1,
        level: ((w0 >> 51) % 0x8) as u8,
        tile: ((w0 >> 48) % 0x8) as u8,
        yl: sign_extend(((w0 >> 32) % 0x4000) as u32, 0x2000),
        ym: sign_extend(((w0 >> 16) % 0x4000) as u32, 0x2000),
        yh: sign_extend((w0 % 0x4000) as u32, 0x2000),
        l: edge(w1),
        h: edge(w2),
        m: edge(w3),
    }
}

pub fn texture_step(w: u64) -> TextureStep
    ensures { result ≡ texture_step_of (fields_of (texture_step_lines 0) (w ∷ [])) }
{
    TextureStep {
        s: sign_extend(((w >> 48) % 0x10000) as u32, 0x8000),
        t: sign_extend(((w >> 32) % 0x10000) as u32, 0x8000),
        dsdx: sign_extend(((w >> 16) % 0x10000) as u32, 0x8000),
        dtdy: sign_extend((w % 0x10000) as u32, 0x8000),
    }
}

pub fn textured_rectangle(w0: u64, w1: u64) -> TexturedRectangle
    ensures { result ≡ textured_rectangle_of (fields_of textured_rectangle_lines (w0 ∷ w1 ∷ [])) }
{
    TexturedRectangle {
        lower_right: Corner {
            x: ((w0 >> 44) % 0x1000) as u16,
            y: ((w0 >> 32) % 0x1000) as u16,
        },
        tile: ((w0 >> 24) % 0x8) as u8,
        upper_left: Corner {
            x: ((w0 >> 12) % 0x1000) as u16,
            y: (w0 % 0x1000) as u16,
        },
        step: texture_step(w1),
    }
}

pub fn texture_modes(w: u64) -> TextureModes
    ensures { result ≡ texture_modes_of (fields_of texture_modes_lines (w ∷ [])) }
{
    TextureModes {
        persp_tex_en: perspective(w),
        detail_tex_en: (w >> 50) % 0x2 == 1,
        sharpen_tex_en: (w >> 49) % 0x2 == 1,
        tex_lod_en: (w >> 48) % 0x2 == 1,
        tlut_en: lookup(w),
        tlut_type: (w >> 46) % 0x2 == 1,
        sample_type: (w >> 45) % 0x2 == 1,
        mid_texel: (w >> 44) % 0x2 == 1,
        bi_lerp_0: (w >> 43) % 0x2 == 1,
        bi_lerp_1: (w >> 42) % 0x2 == 1,
        convert_one: (w >> 41) % 0x2 == 1,
    }
}

pub fn blender_inputs(w: u64) -> BlenderInputs
    ensures { result ≡ blender_inputs_of (fields_of blender_inputs_lines (w ∷ [])) }
{
    BlenderInputs {
        bl_m1a_0: ((w >> 30) % 0x4) as u8,
        bl_m1a_1: ((w >> 28) % 0x4) as u8,
        bl_m1b_0: ((w >> 26) % 0x4) as u8,
        bl_m1b_1: ((w >> 24) % 0x4) as u8,
        bl_m2a_0: ((w >> 22) % 0x4) as u8,
        bl_m2a_1: ((w >> 20) % 0x4) as u8,
        bl_m2b_0: ((w >> 18) % 0x4) as u8,
        bl_m2b_1: ((w >> 16) % 0x4) as u8,
    }
}

pub fn pixel_modes(w: u64) -> PixelModes
    ensures { result ≡ pixel_modes_of (fields_of pixel_modes_lines (w ∷ [])) }
{
    PixelModes {
        force_blend: (w >> 14) % 0x2 == 1,
        alpha_cvg_select: (w >> 13) % 0x2 == 1,
        cvg_x_alpha: (w >> 12) % 0x2 == 1,
        z_mode: ((w >> 10) % 0x4) as u8,
        cvg_dest: ((w >> 8) % 0x4) as u8,
        color_on_cvg: (w >> 7) % 0x2 == 1,
        image_read_en: (w >> 6) % 0x2 == 1,
        z_update_en: (w >> 5) % 0x2 == 1,
        z_compare_en: (w >> 4) % 0x2 == 1,
        antialias_en: (w >> 3) % 0x2 == 1,
        z_source_sel: (w >> 2) % 0x2 == 1,
        dither_alpha_en: (w >> 1) % 0x2 == 1,
        alpha_compare_en: alpha_compare(w),
    }
}

pub fn key_gb(w: u64) -> KeyGb
    ensures { result ≡ key_gb_of (fields_of key_gb_lines (w ∷ [])) }
{
    KeyGb {
        width_g: ((w >> 44) % 0x1000) as u16,
        width_b: ((w >> 32) % 0x1000) as u16,
        center_g: ((w >> 24) % 0x100) as u8,
        scale_g: ((w >> 16) % 0x100) as u8,
        center_b: ((w >> 8) % 0x100) as u8,
        scale_b: (w % 0x100) as u8,
    }
}

pub fn key_r(w: u64) -> KeyR
    ensures { result ≡ key_r_of (fields_of key_r_lines (w ∷ [])) }
{
    KeyR {
        width_r: ((w >> 16) % 0x1000) as u16,
        center_r: ((w >> 8) % 0x100) as u8,
        scale_r: (w % 0x100) as u8,
    }
}

pub fn convert(w: u64) -> Convert
    ensures { result ≡ convert_of (fields_of convert_lines (w ∷ [])) }
{
    Convert {
        k0: ((w >> 45) % 0x200) as u16,
        k1: ((w >> 36) % 0x200) as u16,
        k2: ((w >> 27) % 0x200) as u16,
        k3: ((w >> 18) % 0x200) as u16,
        k4: ((w >> 9) % 0x200) as u16,
        k5: (w % 0x200) as u16,
    }
}

pub fn primitive_depth(w: u64) -> PrimitiveDepth
    ensures { result ≡ primitive_depth_of (fields_of primitive_depth_lines (w ∷ [])) }
{
    PrimitiveDepth {
        z: ((w >> 16) % 0x10000) as u16,
        dz: (w % 0x10000) as u16,
    }
}

pub fn other_modes(w: u64) -> OtherModes
    ensures { result ≡ other_modes_of (fields_of other_modes_lines (w ∷ [])) }
{
    OtherModes {
        atomic_prim: (w >> 55) % 0x2 == 1,
        cycle_type: cycle_type(w),
        texture: texture_modes(w),
        key_en: (w >> 40) % 0x2 == 1,
        rgb_dither_sel: ((w >> 38) % 0x4) as u8,
        alpha_dither_sel: ((w >> 36) % 0x4) as u8,
        blender: blender_inputs(w),
        pixel: pixel_modes(w),
    }
}

pub fn tile_area(w: u64) -> TileArea
    ensures { result ≡ tile_area_of (fields_of tile_area_lines (w ∷ [])) }
{
    TileArea {
        upper_left: TexelCorner {
            s: ((w >> 44) % 0x1000) as u16,
            t: ((w >> 32) % 0x1000) as u16,
        },
        tile: ((w >> 24) % 0x8) as u8,
        lower_right: TexelCorner {
            s: ((w >> 12) % 0x1000) as u16,
            t: (w % 0x1000) as u16,
        },
    }
}

pub fn block(w: u64) -> Block
    ensures { result ≡ block_of (fields_of block_lines (w ∷ [])) }
{
    Block {
        upper_left: TexelCorner {
            s: ((w >> 44) % 0x1000) as u16,
            t: ((w >> 32) % 0x1000) as u16,
        },
        tile: ((w >> 24) % 0x8) as u8,
        lower_right_s: ((w >> 12) % 0x1000) as u16,
        dxt: (w % 0x1000) as u16,
    }
}

pub fn tile_descriptor(w: u64) -> TileDescriptor
    ensures { result ≡ tile_descriptor_of (fields_of tile_descriptor_lines (w ∷ [])) }
{
    TileDescriptor {
        format: ((w >> 53) % 0x8) as u8,
        size: ((w >> 51) % 0x4) as u8,
        line: ((w >> 41) % 0x200) as u16,
        address: ((w >> 32) % 0x200) as u16,
        index: ((w >> 24) % 0x8) as u8,
        palette: ((w >> 20) % 0x10) as u8,
        clamp_t: (w >> 19) % 0x2 == 1,
        mirror_t: (w >> 18) % 0x2 == 1,
        mask_t: ((w >> 14) % 0x10) as u8,
        shift_t: ((w >> 10) % 0x10) as u8,
        clamp_s: (w >> 9) % 0x2 == 1,
        mirror_s: (w >> 8) % 0x2 == 1,
        mask_s: ((w >> 4) % 0x10) as u8,
        shift_s: (w % 0x10) as u8,
    }
}

pub fn color(w: u64) -> Color
    ensures { result ≡ color_of (fields_of color_lines (w ∷ [])) }
{
    Color {
        red: ((w >> 24) % 0x100) as u8,
        green: ((w >> 16) % 0x100) as u8,
        blue: ((w >> 8) % 0x100) as u8,
        alpha: (w % 0x100) as u8,
    }
}

pub fn primitive_color(w: u64) -> PrimitiveColor
    ensures { result ≡ primitive_color_of (fields_of primitive_color_lines (w ∷ [])) }
{
    PrimitiveColor {
        min_level: ((w >> 40) % 0x100) as u8,
        prim_lod_frac: ((w >> 32) % 0x100) as u8,
        color: color(w),
    }
}

pub fn image(w: u64) -> Image
    ensures { result ≡ image_of (fields_of image_lines (w ∷ [])) }
{
    Image {
        format: ((w >> 53) % 0x8) as u8,
        size: ((w >> 51) % 0x4) as u8,
        width: ((w >> 32) % 0x400) as u16,
        address: (w % 0x1000000) as u32,
    }
}

pub fn scissor(w: u64) -> Scissor
    ensures { result ≡ scissor_of (fields_of scissor_lines (w ∷ [])) }
{
    Scissor {
        upper_left: Corner {
            x: ((w >> 44) % 0x1000) as u16,
            y: ((w >> 32) % 0x1000) as u16,
        },
        field: (w >> 25) % 0x2 == 1,
        odd: (w >> 24) % 0x2 == 1,
        lower_right: Corner {
            x: ((w >> 12) % 0x1000) as u16,
            y: (w % 0x1000) as u16,
        },
    }
}

pub fn rectangle(w: u64) -> Rectangle
    ensures { result ≡ rectangle_of (fields_of rectangle_lines (w ∷ [])) }
{
    let right = ((w >> 44) % 0x1000) as u16;
    let bottom = ((w >> 32) % 0x1000) as u16;
    let left = ((w >> 12) % 0x1000) as u16;
    let top = (w % 0x1000) as u16;
    Rectangle {
        lower_right: Corner {
            x: right,
            y: bottom,
        },
        upper_left: Corner { x: left, y: top },
    }
}

pub fn color_image(w: u64) -> Image
    ensures { result ≡ image_of (fields_of color_image_lines (w ∷ [])) }
{
    Image {
        format: ((w >> 53) % 0x8) as u8,
        size: image_size(w),
        width: ((w >> 32) % 0x400) as u16,
        address: (w % 0x4000000) as u32,
    }
}

pub fn fill_color(w: u64) -> u32
    ensures { result ≡ fill_color_in w }
{
    (w % 0x100000000) as u32
}

pub fn combine_mode(w: u64) -> u64
    ensures { result ≡ nat_at (fields_of combine_mode_lines (w ∷ [])) 0 }
{
    w % 0x100000000000000
}

pub fn depth_image(w: u64) -> u32
    ensures { result ≡ nat_at (fields_of depth_image_lines (w ∷ [])) 0 }
{
    (w % 0x1000000) as u32
}

// The cycle type alone of a Set Other Modes.
pub fn cycle_type(w: u64) -> u8
    ensures { result ≡ cycle_type_in w }
{
    ((w >> 52) % 0x4) as u8
}

// Of the other modes those alone that a copy asks for.
pub fn perspective(w: u64) -> bool
    ensures { result ≡ (other_modes_in w).texture.persp_tex_en }
{
    (w >> 51) % 0x2 == 1
}

pub fn lookup(w: u64) -> bool
    ensures { result ≡ (other_modes_in w).texture.tlut_en }
{
    (w >> 47) % 0x2 == 1
}

pub fn alpha_compare(w: u64) -> bool
    ensures { result ≡ (other_modes_in w).pixel.alpha_compare_en }
{
    w % 0x2 == 1
}

// The size alone of a Set Color Image.
pub fn image_size(w: u64) -> u8
    ensures { result ≡ (color_image_in w).size }
{
    ((w >> 51) % 0x4) as u8
}
