// The command of a number out of its words.
ghost use Rattle.std.specs.Prelude.{◌≡◌, [], ◌∷◌};
ghost use Rattle.rdp_command.specs.Decode.{command_in, decode_of, decoded_from};

use crate::{read, words, *};

// The base of the first command of a list, where its words are all there.
pub fn first_command(list: &[u8]) -> Option<Base>
    ensures { decoded_from 3 result ≡ decode_of list.now }
{
    let n = rdp_words::whole_words(list);
    let w0 = rdp_words::word_at(list, 0);
    if n == 0 {
        return None;
    }
    Some(Base {
        number: rdp_words::number_in(w0),
        w0,
        w1: words::own_word(list, n, 1),
        w2: words::own_word(list, n, 2),
        w3: words::own_word(list, n, 3),
    })
}

// The command of a base. It goes into its callers, so that the command is laid where it is answered and not moved there.
#[inline(always)]
pub fn command_in(base: Base) -> Command
    ensures { result ≡ command_in base.number (base.w0 ∷ base.w1 ∷ base.w2 ∷ base.w3 ∷ []) }
{
    let number = base.number;
    if number / 8 == 1 {
        return Command::FillTriangle(read::triangle_base(base.w0, base.w1, base.w2, base.w3));
    }
    match number {
        0x24 => return Command::TextureRectangle(read::textured_rectangle(base.w0, base.w1)),
        0x25 => return Command::TextureRectangleFlip(read::textured_rectangle(base.w0, base.w1)),
        0x26 => return Command::SyncLoad,
        0x27 => return Command::SyncPipe,
        0x28 => return Command::SyncTile,
        0x29 => return Command::SyncFull,
        0x2A => return Command::SetKeyGb(read::key_gb(base.w0)),
        0x2B => return Command::SetKeyR(read::key_r(base.w0)),
        0x2C => return Command::SetConvert(read::convert(base.w0)),
        0x2D => return Command::SetScissor(read::scissor(base.w0)),
        0x2E => return Command::SetPrimitiveDepth(read::primitive_depth(base.w0)),
        0x2F => return Command::SetOtherModes(read::other_modes(base.w0)),
        0x30 => return Command::LoadTlut(read::tile_area(base.w0)),
        0x32 => return Command::SetTileSize(read::tile_area(base.w0)),
        0x33 => return Command::LoadBlock(read::block(base.w0)),
        0x34 => return Command::LoadTile(read::tile_area(base.w0)),
        0x35 => return Command::SetTile(read::tile_descriptor(base.w0)),
        0x36 => return Command::FillRectangle(read::rectangle(base.w0)),
        0x37 => return Command::SetFillColor(read::fill_color(base.w0)),
        0x38 => return Command::SetFogColor(read::color(base.w0)),
        0x39 => return Command::SetBlendColor(read::color(base.w0)),
        0x3A => return Command::SetPrimitiveColor(read::primitive_color(base.w0)),
        0x3B => return Command::SetEnvironmentColor(read::color(base.w0)),
        0x3C => return Command::SetCombineMode(read::combine_mode(base.w0)),
        0x3D => return Command::SetTextureImage(read::image(base.w0)),
        0x3E => return Command::SetDepthImage(read::depth_image(base.w0)),
        0x3F => return Command::SetColorImage(read::color_image(base.w0)),
        0x00 => return Command::NoOperation(number),
        _ => return Command::Unassigned(number),
    }
}
