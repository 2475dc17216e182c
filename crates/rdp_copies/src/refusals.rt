// Copies and loads of tiles that are refused, and the order of refusals.
use crate::show::{
    Page, after_fills, after_fills_with_small_texture, copied, copied_under, loaded,
};
use rdp_text::words::*;
use std::io;
use std::io::Write;

// The load reads four rows of eight texels from address 2 on, two bytes beyond memory.
const TEXTURE_AT_2: u64 = 0x3D_10_0007_00000002;
// Its last row is beyond the end of texture memory.
const TILE_AT_THE_END: u64 = 0x35_10_05FC_00000000;

const TEXELS_FROM_A_HALF: u64 = 0x0010_0000_1000_0400;

pub fn show_refusals(page: &mut Page<impl Write>) -> io::Result<()> {
    copies(page)?;
    loads(page)?;
    texture_bytes(page)?;
    order(page)?;
    fills_in_copy_mode(page)
}

fn copies(page: &mut Page<impl Write>) -> io::Result<()> {
    copied(
        page,
        &[
            ("17, dsdx", TILE, 0x0000_0000_0400_0400),
            ("17, half a texel", TILE, TEXELS_FROM_A_HALF),
            ("17, mirror", 0x35_10_0400_00000100, TEXELS),
        ],
    )?;
    copied_under(
        page,
        &[("17, image of 8 bits", 0x3F_08_0007_00000000, TEXELS)],
    )
}

fn loads(page: &mut Page<impl Write>) -> io::Result<()> {
    after_fills(
        page,
        &[
            ("17, no texture image", &[TILE, LOAD_ALL]),
            ("17, tile not set", &[TEXTURE, LOAD_ALL]),
        ],
    )?;
    loaded(page, &[("17, Load TLUT", TILE, 0x30_000_000_00_01C_000)])?;
    after_fills(
        page,
        &[("12, texels outside memory", &[TEXTURE_AT_2, TILE, LOAD_ALL])],
    )
}

fn texture_bytes(page: &mut Page<impl Write>) -> io::Result<()> {
    copied(page, &[("18, row -1 below byte 0", TILE, TEXELS_ABOVE)])?;
    loaded(
        page,
        &[("18, load past byte 4,095", TILE_AT_THE_END, LOAD_ALL)],
    )
}

fn order(page: &mut Page<impl Write>) -> io::Result<()> {
    after_fills(
        page,
        &[("12 before 18", &[TEXTURE_AT_2, TILE_AT_THE_END, LOAD_ALL])],
    )?;
    copied_under(page, &[("11 before 17", IMAGE_AT_32, TEXELS_FROM_A_HALF)])
}

fn fills_in_copy_mode(page: &mut Page<impl Write>) -> io::Result<()> {
    after_fills(page, &[("10, a fill in COPY mode", &[COPY, RECTANGLE])])?;
    after_fills_with_small_texture(page, &[("16 before 10", &[COPY, RECTANGLE])])
}
