// Load Block (#112): texels one after the other, in words of four. dxt 0x400 begins a line every two words, as the tile's rows are.
use crate::show::{Page, after_fill, after_fills, loaded};
use rdp_text::words::*;
use std::io;
use std::io::Write;

pub fn show_blocks(page: &mut Page<impl Write>) -> io::Result<()> {
    lines(page)?;
    parts_of_memory(page)?;
    size_after_a_block(page)?;
    numbers_of_texels(page)?;
    end_of_texture_memory(page)?;
    needs(page)
}

// Copies what a block loads.
fn block(page: &mut Page<impl Write>, cases: &[(&str, u64)]) -> io::Result<()> {
    for &(name, load) in cases {
        after_fill(
            page,
            name,
            &[TEXTURE, TILE, load, PIPE_SYNC, COPY, COPY_RIGHT, TEXELS],
        )?;
    }
    Ok(())
}

// The same with an upper left of (0, 0), where the block left its raw s and t, of which only whole quarters are whole texels.
fn block_from_0_0(page: &mut Page<impl Write>, cases: &[(&str, u64, u64)]) -> io::Result<()> {
    for &(name, load, texels) in cases {
        after_fill(
            page,
            name,
            &[
                TEXTURE,
                TILE,
                load,
                PIPE_SYNC,
                0x32_000_000_00_01C_00C,
                COPY,
                COPY_RIGHT,
                texels,
            ],
        )?;
    }
    Ok(())
}

fn lines(page: &mut Page<impl Write>) -> io::Result<()> {
    block(
        page,
        &[
            ("block of 32 texels", 0x33_000_000_00_01F_400),
            ("block that is never turned", 0x33_000_000_00_01F_000),
            ("block of lines of three words", 0x33_000_000_00_01F_2AB),
            (
                "block whose every word is turned over in turn",
                0x33_000_000_00_01F_800,
            ),
        ],
    )
}

fn parts_of_memory(page: &mut Page<impl Write>) -> io::Result<()> {
    block_from_0_0(
        page,
        &[
            (
                "block of seven texels, the last three turned",
                0x33_001_001_00_007_800,
                0x0080_0000_1000_0400,
            ),
            (
                "block from row 1 on, past the row's end",
                0x33_006_001_00_011_400,
                TEXELS,
            ),
        ],
    )
}

fn size_after_a_block(page: &mut Page<impl Write>) -> io::Result<()> {
    block(
        page,
        &[
            (
                "a block leaves its s and t as the tile's size",
                0x33_004_000_00_00B_400,
            ),
            (
                "17, a tile's upper left of one quarter",
                0x33_001_000_00_00A_400,
            ),
        ],
    )
}

fn numbers_of_texels(page: &mut Page<impl Write>) -> io::Result<()> {
    loaded(
        page,
        &[
            ("block of no texel", TILE, 0x33_004_000_00_003_400),
            ("block of 2,049 texels", TILE, 0x33_000_000_00_800_400),
            ("12, block of 33 texels", TILE, 0x33_000_000_00_020_400),
        ],
    )
}

fn end_of_texture_memory(page: &mut Page<impl Write>) -> io::Result<()> {
    loaded(
        page,
        &[
            (
                "18, block at the end of texture memory",
                0x35_10_05F9_00000000,
                0x33_000_000_00_01F_400,
            ),
            (
                "block that ends with texture memory",
                0x35_10_05F8_00000000,
                0x33_000_000_00_01F_400,
            ),
        ],
    )
}

fn needs(page: &mut Page<impl Write>) -> io::Result<()> {
    loaded(
        page,
        &[(
            "17 before 12, block of a tile of 32 bits",
            0x35_18_0400_00000000,
            0x33_000_000_00_020_400,
        )],
    )?;
    after_fills(
        page,
        &[(
            "17, block without a texture image",
            &[TILE, 0x33_000_000_00_01F_400],
        )],
    )
}
