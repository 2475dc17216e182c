// Copies of a tile that was loaded out of what was drawn.
use crate::show::{Page, after_fills, copied, copied_under, loaded};
use rdp_text::words::*;
use std::io;
use std::io::Write;

pub fn show_copies(page: &mut Page<impl Write>) -> io::Result<()> {
    first_texels(page)?;
    turned_rows(page)?;
    kept_pixels(page)
}

fn first_texels(page: &mut Page<impl Write>) -> io::Result<()> {
    copied(
        page,
        &[
            ("copy", TILE, TEXELS),
            ("copy from column 1 and row 1", TILE, TEXELS_FROM_1_1),
            // With the tile's rows from byte 16 on, row -1 stands at byte 0.
            ("copy from row -1", 0x35_10_0402_00000000, TEXELS_ABOVE),
        ],
    )?;
    copied_under(
        page,
        &[
            // The tile begins at column 1 and row 1, which are taken off again.
            (
                "copy of a tile with an upper left",
                0x32_004_004_00_01C_00C,
                TEXELS_FROM_1_1,
            ),
        ],
    )
}

// A tile of eight bytes a row reads the bytes as they stand in texture memory, but for the turn of its own rows.
fn turned_rows(page: &mut Page<impl Write>) -> io::Result<()> {
    after_fills(
        page,
        &[(
            "texture memory of rows of 8 bytes",
            &[
                TEXTURE,
                TILE,
                LOAD_ALL,
                PIPE_SYNC,
                0x35_10_0200_00000000,
                0x32_000_000_00_000_000,
                COPY,
                COPY_RIGHT,
                TEXELS,
            ],
        )],
    )
}

fn kept_pixels(page: &mut Page<impl Write>) -> io::Result<()> {
    copied_under(
        page,
        &[
            ("copy of the odd rows", 0x2D_000_000_03_020_010, TEXELS),
            ("copy inside a scissor", 0x2D_014_004_00_01C_00C, TEXELS),
        ],
    )?;
    after_fills(
        page,
        &[
            // An image of width 4 has column 4 of a row where column 0 of the next one is, which is written later.
            (
                "copy that is wider than the image",
                &[
                    TEXTURE,
                    TILE,
                    LOAD_ALL,
                    PIPE_SYNC,
                    COPY,
                    IMAGE_OF_4,
                    0x24_01C_008_00_000_000,
                    TEXELS,
                ],
            ),
        ],
    )
}
