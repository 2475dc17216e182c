// The digest of a group of registers, here and in reference/src/bin/registers.rs. It starts at 0; each value is xored into it, and the generator's step
// taken. So it is 0 where all is zero and not set. The values are, for each register in the order of its group, 1 where it is set and else 0, then its
// fields in the order of document 000's bit lines. The groups:
//   colours   fill, fog, blend, primitive, environment
//   combiner  combine mode, key green and blue, key red, convert
//   modes     other modes, primitive depth, scissor
//   images    colour, texture, depth
//   a tile    whether it is set, its descriptor, whether its size is set, the size: upper left s and t, lower right s and t
use crate::lists::next;
use rdp_check::*;
use rdp_command::*;

fn fold(h: u64, values: &[u64]) -> u64 {
    values.iter().fold(h, |q, value| next(q ^ *value))
}

// What has a digest: its values, folded into that of the values before it.
pub trait Digest {
    fn digest(self, h: u64) -> u64;
}

impl<T: Digest> Digest for Register<T> {
    fn digest(self, h: u64) -> u64 {
        self.value.digest(fold(h, &[self.set as u64]))
    }
}

impl Digest for u32 {
    fn digest(self, h: u64) -> u64 {
        fold(h, &[self as u64])
    }
}

impl Digest for u64 {
    fn digest(self, h: u64) -> u64 {
        fold(h, &[self])
    }
}

impl Digest for Color {
    fn digest(self, h: u64) -> u64 {
        fold(
            h,
            &[
                self.red as u64,
                self.green as u64,
                self.blue as u64,
                self.alpha as u64,
            ],
        )
    }
}

impl Digest for PrimitiveColor {
    fn digest(self, h: u64) -> u64 {
        let levels = [self.min_level as u64, self.prim_lod_frac as u64];
        self.color.digest(fold(h, &levels))
    }
}

impl Digest for Colors {
    fn digest(self, h: u64) -> u64 {
        let fog = self.fog.digest(self.fill.digest(h));
        let primitive = self.primitive.digest(self.blend.digest(fog));
        self.environment.digest(primitive)
    }
}

impl Digest for KeyGb {
    fn digest(self, h: u64) -> u64 {
        fold(
            h,
            &[
                self.width_g as u64,
                self.width_b as u64,
                self.center_g as u64,
                self.scale_g as u64,
                self.center_b as u64,
                self.scale_b as u64,
            ],
        )
    }
}

impl Digest for KeyR {
    fn digest(self, h: u64) -> u64 {
        fold(
            h,
            &[
                self.width_r as u64,
                self.center_r as u64,
                self.scale_r as u64,
            ],
        )
    }
}

impl Digest for Convert {
    fn digest(self, h: u64) -> u64 {
        fold(
            h,
            &[
                self.k0 as u64,
                self.k1 as u64,
                self.k2 as u64,
                self.k3 as u64,
                self.k4 as u64,
                self.k5 as u64,
            ],
        )
    }
}

impl Digest for Combiner {
    fn digest(self, h: u64) -> u64 {
        let key_gb = self.key_gb.digest(self.combine.digest(h));
        self.convert.digest(self.key_r.digest(key_gb))
    }
}

impl Digest for TextureModes {
    fn digest(self, h: u64) -> u64 {
        fold(
            h,
            &[
                self.persp_tex_en as u64,
                self.detail_tex_en as u64,
                self.sharpen_tex_en as u64,
                self.tex_lod_en as u64,
                self.tlut_en as u64,
                self.tlut_type as u64,
                self.sample_type as u64,
                self.mid_texel as u64,
                self.bi_lerp_0 as u64,
                self.bi_lerp_1 as u64,
                self.convert_one as u64,
            ],
        )
    }
}

impl Digest for BlenderInputs {
    fn digest(self, h: u64) -> u64 {
        fold(
            h,
            &[
                self.bl_m1a_0 as u64,
                self.bl_m1a_1 as u64,
                self.bl_m1b_0 as u64,
                self.bl_m1b_1 as u64,
                self.bl_m2a_0 as u64,
                self.bl_m2a_1 as u64,
                self.bl_m2b_0 as u64,
                self.bl_m2b_1 as u64,
            ],
        )
    }
}

impl Digest for PixelModes {
    fn digest(self, h: u64) -> u64 {
        fold(
            h,
            &[
                self.force_blend as u64,
                self.alpha_cvg_select as u64,
                self.cvg_x_alpha as u64,
                self.z_mode as u64,
                self.cvg_dest as u64,
                self.color_on_cvg as u64,
                self.image_read_en as u64,
                self.z_update_en as u64,
                self.z_compare_en as u64,
                self.antialias_en as u64,
                self.z_source_sel as u64,
                self.dither_alpha_en as u64,
                self.alpha_compare_en as u64,
            ],
        )
    }
}

impl Digest for OtherModes {
    fn digest(self, h: u64) -> u64 {
        let cycle = fold(h, &[self.atomic_prim as u64, self.cycle_type as u64]);
        let dither = [
            self.key_en as u64,
            self.rgb_dither_sel as u64,
            self.alpha_dither_sel as u64,
        ];
        let texture = fold(self.texture.digest(cycle), &dither);
        self.pixel.digest(self.blender.digest(texture))
    }
}

impl Digest for PrimitiveDepth {
    fn digest(self, h: u64) -> u64 {
        fold(h, &[self.z as u64, self.dz as u64])
    }
}

impl Digest for Scissor {
    fn digest(self, h: u64) -> u64 {
        fold(
            h,
            &[
                self.upper_left.x as u64,
                self.upper_left.y as u64,
                self.field as u64,
                self.odd as u64,
                self.lower_right.x as u64,
                self.lower_right.y as u64,
            ],
        )
    }
}

impl Digest for Modes {
    fn digest(self, h: u64) -> u64 {
        self.scissor.digest(self.depth.digest(self.other.digest(h)))
    }
}

impl Digest for Image {
    fn digest(self, h: u64) -> u64 {
        fold(
            h,
            &[
                self.format as u64,
                self.size as u64,
                self.width as u64,
                self.address as u64,
            ],
        )
    }
}

impl Digest for Images {
    fn digest(self, h: u64) -> u64 {
        self.depth.digest(self.texture.digest(self.color.digest(h)))
    }
}

// How a tile is repeated along t or s.
fn axis(h: u64, clamp: bool, mirror: bool, mask: u8, shift: u8) -> u64 {
    fold(h, &[clamp as u64, mirror as u64, mask as u64, shift as u64])
}

impl Digest for TileDescriptor {
    fn digest(self, h: u64) -> u64 {
        let texels = fold(
            h,
            &[
                self.format as u64,
                self.size as u64,
                self.line as u64,
                self.address as u64,
                self.index as u64,
                self.palette as u64,
            ],
        );
        let along_t = axis(
            texels,
            self.clamp_t,
            self.mirror_t,
            self.mask_t,
            self.shift_t,
        );
        axis(
            along_t,
            self.clamp_s,
            self.mirror_s,
            self.mask_s,
            self.shift_s,
        )
    }
}

impl Digest for TileSize {
    fn digest(self, h: u64) -> u64 {
        fold(
            h,
            &[
                self.upper_left.s as u64,
                self.upper_left.t as u64,
                self.lower_right.s as u64,
                self.lower_right.t as u64,
            ],
        )
    }
}

impl Digest for Tile {
    fn digest(self, h: u64) -> u64 {
        self.size.digest(self.descriptor.digest(h))
    }
}
