// The numbers of a command's fields, in the order of the layout.
ghost use Rattle.std.specs.Prelude.{◌≡◌, ◌≤◌, ◌+◌, ◌*◌, map, length};
ghost use Rattle.std.specs.Int.{w64};
ghost use mir.Val.{bool_byte, of_z, to_z};
ghost use Rattle.rdp_words.specs.Kinds.{is_unassigned};
ghost use Rattle.rdp_words.specs.Grounds.{answered};
ghost use Rattle.rdp_command.specs.Layout.{edge_lines, texture_step_lines, textured_rectangle_lines, triangle_base_lines};
ghost use Rattle.rdp_encode.specs.Placed.{number_of_value};
ghost use Rattle.rdp_encode.specs.Steps.{GivenBack, Spread, values_answer, values_out};
ghost use Rattle.rdp_command.specs.Groups.{edge_values, triangle_base_values, texture_step_values, textured_rectangle_values, key_gb_values, key_r_values, convert_values, scissor_values, primitive_depth_values, other_modes_values, tile_area_values, block_values, tile_descriptor_values, rectangle_values, color_values, primitive_color_values, image_values};

use crate::numbers::Numbered;
use rdp_command::*;
use rdp_words::{Answer, Ground, Refusal};

// A signed number in two's complement of 64 bits.
fn twos(value: i16) -> u64
    ensures { (result ≡ of_z w64 value) × (to_z w64 (of_z w64 value) ≡ value) }
{
    i64::from(value).cast_unsigned()
}

fn edge(g: Edge) -> [u64; 4]
    ensures { (result ≡ map number_of_value (edge_values g)) × GivenBack (edge_lines 0) (edge_values g) }
{
    [twos(g.x.i), g.x.f as u64, twos(g.dxdy.i), g.dxdy.f as u64]
}

// The number of a triangle: what follows its base is its low three bits.
fn triangle_number(g: TriangleBase) -> u8
    ensures { result ≡ 0x08 + bool_byte g.shade * 4 + bool_byte g.texture * 2 + bool_byte g.zbuffer }
{
    0x08 + (g.shade as u8) * 4 + (g.texture as u8) * 2 + (g.zbuffer as u8)
}

fn triangle_base(g: TriangleBase) -> [u64; 21]
    ensures { (result ≡ map number_of_value (triangle_base_values g)) × GivenBack triangle_base_lines (triangle_base_values g) }
{
    let l = edge(g.l);
    let h = edge(g.h);
    let m = edge(g.m);
    [
        g.shade as u64,
        g.texture as u64,
        g.zbuffer as u64,
        g.lmajor as u64,
        g.level as u64,
        g.tile as u64,
        twos(g.yl),
        twos(g.ym),
        twos(g.yh),
        l[0],
        l[1],
        l[2],
        l[3],
        h[0],
        h[1],
        h[2],
        h[3],
        m[0],
        m[1],
        m[2],
        m[3],
    ]
}

fn texture_step(g: TextureStep) -> [u64; 4]
    ensures { (result ≡ map number_of_value (texture_step_values g)) × GivenBack (texture_step_lines 0) (texture_step_values g) }
{
    [twos(g.s), twos(g.t), twos(g.dsdx), twos(g.dtdy)]
}

fn textured_rectangle(g: TexturedRectangle) -> [u64; 9]
    ensures { (result ≡ map number_of_value (textured_rectangle_values g)) × GivenBack textured_rectangle_lines (textured_rectangle_values g) }
{
    let step = texture_step(g.step);
    [
        g.lower_right.x as u64,
        g.lower_right.y as u64,
        g.tile as u64,
        g.upper_left.x as u64,
        g.upper_left.y as u64,
        step[0],
        step[1],
        step[2],
        step[3],
    ]
}

fn key_gb(g: KeyGb) -> [u64; 6]
    ensures { result ≡ map number_of_value (key_gb_values g) }
{
    [
        g.width_g as u64,
        g.width_b as u64,
        g.center_g as u64,
        g.scale_g as u64,
        g.center_b as u64,
        g.scale_b as u64,
    ]
}

fn key_r(g: KeyR) -> [u64; 3]
    ensures { result ≡ map number_of_value (key_r_values g) }
{
    [g.width_r as u64, g.center_r as u64, g.scale_r as u64]
}

fn convert(g: Convert) -> [u64; 6]
    ensures { result ≡ map number_of_value (convert_values g) }
{
    [
        g.k0 as u64,
        g.k1 as u64,
        g.k2 as u64,
        g.k3 as u64,
        g.k4 as u64,
        g.k5 as u64,
    ]
}

fn scissor(g: Scissor) -> [u64; 6]
    ensures { result ≡ map number_of_value (scissor_values g) }
{
    [
        g.upper_left.x as u64,
        g.upper_left.y as u64,
        g.field as u64,
        g.odd as u64,
        g.lower_right.x as u64,
        g.lower_right.y as u64,
    ]
}

fn primitive_depth(g: PrimitiveDepth) -> [u64; 2]
    ensures { result ≡ map number_of_value (primitive_depth_values g) }
{
    [g.z as u64, g.dz as u64]
}

fn other_modes(g: OtherModes) -> [u64; 37]
    ensures { result ≡ map number_of_value (other_modes_values g) }
{
    [
        g.atomic_prim as u64,
        g.cycle_type as u64,
        g.texture.persp_tex_en as u64,
        g.texture.detail_tex_en as u64,
        g.texture.sharpen_tex_en as u64,
        g.texture.tex_lod_en as u64,
        g.texture.tlut_en as u64,
        g.texture.tlut_type as u64,
        g.texture.sample_type as u64,
        g.texture.mid_texel as u64,
        g.texture.bi_lerp_0 as u64,
        g.texture.bi_lerp_1 as u64,
        g.texture.convert_one as u64,
        g.key_en as u64,
        g.rgb_dither_sel as u64,
        g.alpha_dither_sel as u64,
        g.blender.bl_m1a_0 as u64,
        g.blender.bl_m1a_1 as u64,
        g.blender.bl_m1b_0 as u64,
        g.blender.bl_m1b_1 as u64,
        g.blender.bl_m2a_0 as u64,
        g.blender.bl_m2a_1 as u64,
        g.blender.bl_m2b_0 as u64,
        g.blender.bl_m2b_1 as u64,
        g.pixel.force_blend as u64,
        g.pixel.alpha_cvg_select as u64,
        g.pixel.cvg_x_alpha as u64,
        g.pixel.z_mode as u64,
        g.pixel.cvg_dest as u64,
        g.pixel.color_on_cvg as u64,
        g.pixel.image_read_en as u64,
        g.pixel.z_update_en as u64,
        g.pixel.z_compare_en as u64,
        g.pixel.antialias_en as u64,
        g.pixel.z_source_sel as u64,
        g.pixel.dither_alpha_en as u64,
        g.pixel.alpha_compare_en as u64,
    ]
}

fn tile_area(g: TileArea) -> [u64; 5]
    ensures { result ≡ map number_of_value (tile_area_values g) }
{
    [
        g.upper_left.s as u64,
        g.upper_left.t as u64,
        g.tile as u64,
        g.lower_right.s as u64,
        g.lower_right.t as u64,
    ]
}

fn block(g: Block) -> [u64; 5]
    ensures { result ≡ map number_of_value (block_values g) }
{
    [
        g.upper_left.s as u64,
        g.upper_left.t as u64,
        g.tile as u64,
        g.lower_right_s as u64,
        g.dxt as u64,
    ]
}

fn tile_descriptor(g: TileDescriptor) -> [u64; 14]
    ensures { result ≡ map number_of_value (tile_descriptor_values g) }
{
    [
        g.format as u64,
        g.size as u64,
        g.line as u64,
        g.address as u64,
        g.index as u64,
        g.palette as u64,
        g.clamp_t as u64,
        g.mirror_t as u64,
        g.mask_t as u64,
        g.shift_t as u64,
        g.clamp_s as u64,
        g.mirror_s as u64,
        g.mask_s as u64,
        g.shift_s as u64,
    ]
}

fn rectangle(g: Rectangle) -> [u64; 4]
    ensures { result ≡ map number_of_value (rectangle_values g) }
{
    [
        g.lower_right.x as u64,
        g.lower_right.y as u64,
        g.upper_left.x as u64,
        g.upper_left.y as u64,
    ]
}

fn color(g: Color) -> [u64; 4]
    ensures { result ≡ map number_of_value (color_values g) }
{
    [g.red as u64, g.green as u64, g.blue as u64, g.alpha as u64]
}

fn primitive_color(g: PrimitiveColor) -> [u64; 6]
    ensures { result ≡ map number_of_value (primitive_color_values g) }
{
    [
        g.min_level as u64,
        g.prim_lod_frac as u64,
        g.color.red as u64,
        g.color.green as u64,
        g.color.blue as u64,
        g.color.alpha as u64,
    ]
}

fn image(g: Image) -> [u64; 4]
    ensures { result ≡ map number_of_value (image_values g) }
{
    [
        g.format as u64,
        g.size as u64,
        g.width as u64,
        g.address as u64,
    ]
}

// Whether a number is unassigned.
fn is_unassigned(number: u8) -> bool
    ensures { result ≡ is_unassigned number }
{
    matches!(number, 0x01..=0x07 | 0x10..=0x23 | 0x31)
}

// A command's number with the numbers of its fields.
#[tactic(auto, unfolding(rdp_command::specs::Layout::layout))]
pub fn spread(command: Command) -> Numbered
    ensures { Spread command result }
{
    match command {
        Command::NoOperation(number) => Numbered::new((number == 0x00).then_some(number), &[]),
        Command::FillTriangle(g) => Numbered::new(Some(triangle_number(g)), &triangle_base(g)),
        Command::TextureRectangle(g) => Numbered::new(Some(0x24), &textured_rectangle(g)),
        Command::TextureRectangleFlip(g) => Numbered::new(Some(0x25), &textured_rectangle(g)),
        Command::SyncLoad => Numbered::new(Some(0x26), &[]),
        Command::SyncPipe => Numbered::new(Some(0x27), &[]),
        Command::SyncTile => Numbered::new(Some(0x28), &[]),
        Command::SyncFull => Numbered::new(Some(0x29), &[]),
        Command::SetKeyGb(g) => Numbered::new(Some(0x2A), &key_gb(g)),
        Command::SetKeyR(g) => Numbered::new(Some(0x2B), &key_r(g)),
        Command::SetConvert(g) => Numbered::new(Some(0x2C), &convert(g)),
        Command::SetScissor(g) => Numbered::new(Some(0x2D), &scissor(g)),
        Command::SetPrimitiveDepth(g) => Numbered::new(Some(0x2E), &primitive_depth(g)),
        Command::SetOtherModes(g) => Numbered::new(Some(0x2F), &other_modes(g)),
        Command::LoadTlut(g) => Numbered::new(Some(0x30), &tile_area(g)),
        Command::SetTileSize(g) => Numbered::new(Some(0x32), &tile_area(g)),
        Command::LoadBlock(g) => Numbered::new(Some(0x33), &block(g)),
        Command::LoadTile(g) => Numbered::new(Some(0x34), &tile_area(g)),
        Command::SetTile(g) => Numbered::new(Some(0x35), &tile_descriptor(g)),
        Command::FillRectangle(g) => Numbered::new(Some(0x36), &rectangle(g)),
        Command::SetFillColor(n) => Numbered::new(Some(0x37), &[n as u64]),
        Command::SetFogColor(g) => Numbered::new(Some(0x38), &color(g)),
        Command::SetBlendColor(g) => Numbered::new(Some(0x39), &color(g)),
        Command::SetPrimitiveColor(g) => Numbered::new(Some(0x3A), &primitive_color(g)),
        Command::SetEnvironmentColor(g) => Numbered::new(Some(0x3B), &color(g)),
        Command::SetCombineMode(n) => Numbered::new(Some(0x3C), &[n]),
        Command::SetTextureImage(g) => Numbered::new(Some(0x3D), &image(g)),
        Command::SetDepthImage(n) => Numbered::new(Some(0x3E), &[n as u64]),
        Command::SetColorImage(g) => Numbered::new(Some(0x3F), &image(g)),
        Command::Unassigned(number) => Numbered::new(is_unassigned(number).then_some(number), &[]),
    }
}

// Writes numbers to the front of out.
pub fn write_values(values: &[u64], out: &mut [u64]) -> Answer
    requires { length values.now ≤ 37 }
    ensures answer { answered result ≡ values_answer values.now out.old }
    ensures output { out.new ≡ values_out values.now out.old }
{
    let count = values.len();
    let place = count as u32;
    if out.len() < count {
        return Err(Refusal {
            ground: Ground::OutputTooShort,
            place,
        });
    }
    out[..count].copy_from_slice(values);
    Ok(place)
}
