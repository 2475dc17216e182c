// The registers after a list as one number: for the benchmark alone, and no part of the library. The fields of each register are put side by side in a
// few numbers, and these are joined, so that a field that is wrong shows.
#![tactic(auto)]

ghost use Rattle.std.specs.Prelude.{◌≡◌};
ghost use Rattle.rdp_words.specs.Grounds.{answered};
ghost use Rattle.rdp_state.specs.After.{list_state_of};
ghost use Rattle.rdp_bench.specs.Mixed.{mixed_five, mixed_flag, mixed_bits, mixed_bytes, mixed_halves, mixed_number, mixed_color, mixed_primitive_color, mixed_key_gb, mixed_key_r, mixed_convert, mixed_texture_modes, mixed_blender_inputs, mixed_pixel_modes, mixed_other_modes, mixed_depth, mixed_scissor, mixed_image, mixed_descriptor, mixed_colors, mixed_combiner, mixed_modes, mixed_images, mixed_tile, mixed_tiles, mixed_answer, mixed_of};

use rdp_check::*;
use rdp_command::*;
use rdp_words::Answer;

// Five numbers, each turned by thirteen bits more than the one before.
#[tactic(auto, unfolding(crate::specs::Mixed::mixed_five))]
fn join(a: u64, b: u64, c: u64, d: u64, e: u64) -> u64
    ensures { result ≡ mixed_five a b c d e }
{
    a ^ b.rotate_left(13) ^ c.rotate_left(26) ^ d.rotate_left(39) ^ e.rotate_left(52)
}

fn flag(a: bool) -> u64
    ensures { result ≡ mixed_flag a }
{
    a as u64
}

// bits, bytes and halves stay three: in one function over u64 each call would widen its four values.
fn bits(a: bool, b: bool, c: bool, d: bool) -> u64
    ensures { result ≡ mixed_bits a b c d }
{
    (a as u64) ^ ((b as u64) << 1) ^ ((c as u64) << 2) ^ ((d as u64) << 3)
}

fn bytes(a: u8, b: u8, c: u8, d: u8) -> u64
    ensures { result ≡ mixed_bytes a b c d }
{
    (a as u64) ^ ((b as u64) << 8) ^ ((c as u64) << 16) ^ ((d as u64) << 24)
}

fn halves(a: u16, b: u16, c: u16, d: u16) -> u64
    ensures { result ≡ mixed_halves a b c d }
{
    (a as u64) ^ ((b as u64) << 16) ^ ((c as u64) << 32) ^ ((d as u64) << 48)
}

// A register of one number: the fill colour, the combine mode, the address of the depth image.
fn number(set: bool, value: u64) -> u64
    ensures { result ≡ mixed_number set value }
{
    (set as u64) ^ (value << 8)
}

fn image(g: Register<Image>) -> u64
    ensures { result ≡ mixed_image g }
{
    (g.set as u64)
        ^ ((g.value.format as u64) << 9)
        ^ ((g.value.size as u64) << 18)
        ^ ((g.value.width as u64) << 27)
        ^ ((g.value.address as u64) << 36)
}

fn color(g: Register<Color>) -> u64
    ensures { result ≡ mixed_color g }
{
    join(
        flag(g.set),
        bytes(g.value.red, g.value.green, g.value.blue, g.value.alpha),
        0,
        0,
        0,
    )
}

fn primitive_color(g: Register<PrimitiveColor>) -> u64
    ensures { result ≡ mixed_primitive_color g }
{
    let c = g.value;
    join(
        flag(g.set),
        bytes(c.min_level, c.prim_lod_frac, 0, 0),
        bytes(c.color.red, c.color.green, c.color.blue, c.color.alpha),
        0,
        0,
    )
}

fn colors(g: Colors) -> u64
    ensures { result ≡ mixed_colors g }
{
    join(
        number(g.fill.set, u64::from(g.fill.value)),
        color(g.fog),
        color(g.blend),
        primitive_color(g.primitive),
        color(g.environment),
    )
}

fn key_gb(g: Register<KeyGb>) -> u64
    ensures { result ≡ mixed_key_gb g }
{
    join(
        flag(g.set),
        halves(g.value.width_g, g.value.width_b, 0, 0),
        bytes(
            g.value.center_g,
            g.value.scale_g,
            g.value.center_b,
            g.value.scale_b,
        ),
        0,
        0,
    )
}

fn key_r(g: Register<KeyR>) -> u64
    ensures { result ≡ mixed_key_r g }
{
    join(
        flag(g.set),
        halves(g.value.width_r, 0, 0, 0),
        bytes(g.value.center_r, g.value.scale_r, 0, 0),
        0,
        0,
    )
}

fn convert(g: Register<Convert>) -> u64
    ensures { result ≡ mixed_convert g }
{
    join(
        flag(g.set),
        halves(g.value.k0, g.value.k1, g.value.k2, g.value.k3),
        halves(g.value.k4, g.value.k5, 0, 0),
        0,
        0,
    )
}

fn combiner(g: Combiner) -> u64
    ensures { result ≡ mixed_combiner g }
{
    join(
        number(g.combine.set, g.combine.value),
        key_gb(g.key_gb),
        key_r(g.key_r),
        convert(g.convert),
        0,
    )
}

fn texture_modes(m: TextureModes) -> u64
    ensures { result ≡ mixed_texture_modes m }
{
    join(
        bits(
            m.persp_tex_en,
            m.detail_tex_en,
            m.sharpen_tex_en,
            m.tex_lod_en,
        ),
        bits(m.tlut_en, m.tlut_type, m.sample_type, m.mid_texel),
        bits(m.bi_lerp_0, m.bi_lerp_1, m.convert_one, false),
        0,
        0,
    )
}

fn blender_inputs(m: BlenderInputs) -> u64
    ensures { result ≡ mixed_blender_inputs m }
{
    join(
        bytes(m.bl_m1a_0, m.bl_m1a_1, m.bl_m1b_0, m.bl_m1b_1),
        bytes(m.bl_m2a_0, m.bl_m2a_1, m.bl_m2b_0, m.bl_m2b_1),
        0,
        0,
        0,
    )
}

fn pixel_modes(m: PixelModes) -> u64
    ensures { result ≡ mixed_pixel_modes m }
{
    join(
        bits(
            m.force_blend,
            m.alpha_cvg_select,
            m.cvg_x_alpha,
            m.color_on_cvg,
        ),
        bits(
            m.image_read_en,
            m.z_update_en,
            m.z_compare_en,
            m.antialias_en,
        ),
        bits(m.z_source_sel, m.dither_alpha_en, m.alpha_compare_en, false),
        bytes(m.z_mode, m.cvg_dest, 0, 0),
        0,
    )
}

fn other_modes(g: Register<OtherModes>) -> u64
    ensures { result ≡ mixed_other_modes g }
{
    let m = g.value;
    join(
        bits(g.set, m.atomic_prim, m.key_en, false),
        bytes(m.cycle_type, m.rgb_dither_sel, m.alpha_dither_sel, 0),
        texture_modes(m.texture),
        blender_inputs(m.blender),
        pixel_modes(m.pixel),
    )
}

fn depth(g: Register<PrimitiveDepth>) -> u64
    ensures { result ≡ mixed_depth g }
{
    join(flag(g.set), halves(g.value.z, g.value.dz, 0, 0), 0, 0, 0)
}

fn scissor(g: Register<Scissor>) -> u64
    ensures { result ≡ mixed_scissor g }
{
    let s = g.value;
    join(
        bits(g.set, s.field, s.odd, false),
        halves(
            s.upper_left.x,
            s.upper_left.y,
            s.lower_right.x,
            s.lower_right.y,
        ),
        0,
        0,
        0,
    )
}

fn modes(g: Modes) -> u64
    ensures { result ≡ mixed_modes g }
{
    join(
        other_modes(g.other),
        depth(g.depth),
        scissor(g.scissor),
        0,
        0,
    )
}

fn images(g: Images) -> u64
    ensures { result ≡ mixed_images g }
{
    join(
        image(g.color),
        image(g.texture),
        number(g.depth.set, u64::from(g.depth.value)),
        0,
        0,
    )
}

fn descriptor(d: TileDescriptor) -> u64
    ensures { result ≡ mixed_descriptor d }
{
    join(
        bytes(d.format, d.size, d.index, d.palette),
        halves(d.line, d.address, 0, 0),
        bits(d.clamp_t, d.mirror_t, d.clamp_s, d.mirror_s),
        bytes(d.mask_t, d.shift_t, d.mask_s, d.shift_s),
        0,
    )
}

fn tile(h: u64, t: Tile) -> u64
    ensures { result ≡ mixed_tile h t }
{
    let s = t.size.value;
    join(
        bits(t.descriptor.set, t.size.set, false, false),
        descriptor(t.descriptor.value),
        halves(
            s.upper_left.s,
            s.upper_left.t,
            s.lower_right.s,
            s.lower_right.t,
        ),
        h,
        0,
    )
}

fn tiles(all: [Tile; 8]) -> u64
    ensures { result ≡ mixed_tiles 0 all }
{
    all.iter().fold(0, |q, t| tile(q, *t))
}

fn answer(number: u32, place: u32) -> u64
    ensures { result ≡ mixed_answer number place }
{
    (number as u64) ^ ((place as u64) << 32)
}

// An answer's number and place: 0 and the words, or those of the refusal.
fn outcome(told: Answer) -> u64
    ensures { result ≡ mixed_answer (answered told).number (answered told).place }
{
    match told {
        Ok(words) => answer(0, words),
        Err(refusal) => answer(u32::from(refusal.ground), refusal.place),
    }
}

// The check's answer and the registers after a list, as one number.
#[unsafe(no_mangle)]
pub extern "C" fn lanyardrove_bench_registers(list: &[u8]) -> u64
    ensures { result ≡ mixed_of (list_state_of list.now) }
{
    let state = rdp_state::registers_after(list);
    let eight = state.registers.tiles;
    let h = outcome(state.outcome) ^ tiles(eight);
    join(
        h,
        colors(state.registers.colors),
        combiner(state.registers.combiner),
        modes(state.registers.modes),
        images(state.registers.images),
    )
}
