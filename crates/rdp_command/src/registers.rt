// The groups of registers, out of the words that set them.
ghost use Rattle.std.specs.Prelude.{◌≡◌};
ghost use Rattle.rdp_command.specs.Reads.{color_fields, combiner_fields, mode_fields, image_fields};

use crate::{read, *};

pub fn colors(words: RegisterWords) -> ColorFields
    ensures { result ≡ color_fields words }
{
    ColorFields {
        fill: read::fill_color(words.fill_color),
        fog: read::color(words.fog_color),
        blend: read::color(words.blend_color),
        primitive: read::primitive_color(words.primitive_color),
        environment: read::color(words.environment_color),
    }
}

pub fn combiner(words: RegisterWords) -> CombinerFields
    ensures { result ≡ combiner_fields words }
{
    CombinerFields {
        combine: read::combine_mode(words.combine_mode),
        key_gb: read::key_gb(words.key_gb),
        key_r: read::key_r(words.key_r),
        convert: read::convert(words.convert),
    }
}

pub fn modes(words: RegisterWords) -> ModeFields
    ensures { result ≡ mode_fields words }
{
    ModeFields {
        other: read::other_modes(words.other_modes),
        depth: read::primitive_depth(words.primitive_depth),
        scissor: read::scissor(words.scissor),
    }
}

pub fn images(words: RegisterWords) -> ImageFields
    ensures { result ≡ image_fields words }
{
    ImageFields {
        color: read::color_image(words.color_image),
        texture: read::image(words.texture_image),
        depth: read::depth_image(words.depth_image),
    }
}
