// The registers that a rectangle is drawn under: the last ones set before it.
use crate::show::{Page, drawings, pictures};
use rdp_text::words::*;
use std::io;
use std::io::Write;

pub fn show_registers(page: &mut Page<impl Write>) -> io::Result<()> {
    colors(page)?;
    images(page)?;
    last_address(page)?;
    modes(page)?;
    other_commands(page)?;
    unused_bits(page)
}

fn colors(page: &mut Page<impl Write>) -> io::Result<()> {
    pictures(
        page,
        &[
            ("colour never set", &[FILL, IMAGE, SCISSOR, RECTANGLE]),
            (
                "colour set twice",
                &[FILL, DIGITS, IMAGE, SCISSOR, COLOR, RECTANGLE],
            ),
            (
                "colour set after the draw",
                &[FILL, IMAGE, SCISSOR, RECTANGLE, PIPE_SYNC, COLOR],
            ),
            // Fog, blend, primitive and environment colour.
            (
                "other colours set",
                &[
                    FILL,
                    IMAGE,
                    SCISSOR,
                    COLOR,
                    0x38_000000_11223344,
                    0x39_000000_11223344,
                    0x3A_000000_11223344,
                    0x3B_000000_11223344,
                    RECTANGLE,
                ],
            ),
        ],
    )
}

fn images(page: &mut Page<impl Write>) -> io::Result<()> {
    drawings(
        page,
        &[
            // 16 bits at address 0, then 8 bits at address 64.
            (
                "two images",
                &[
                    FILL,
                    IMAGE,
                    SCISSOR,
                    COLOR,
                    RECTANGLE,
                    PIPE_SYNC,
                    0x3F_08_000F_00000040,
                    DIGITS,
                    RECTANGLE,
                ],
                128,
                0,
                16,
            ),
        ],
    )?;
    pictures(
        page,
        &[
            // Texture and depth image.
            (
                "other images set",
                &[
                    FILL,
                    IMAGE,
                    SCISSOR,
                    COLOR,
                    0x3D_18_0003_00000020,
                    0x3E_00_0000_00000020,
                    RECTANGLE,
                ],
            ),
        ],
    )
}

fn last_address(page: &mut Page<impl Write>) -> io::Result<()> {
    drawings(
        page,
        &[(
            "the last address",
            &[FILL, 0x3F_10_0007_03FFFFC0, SCISSOR, COLOR, RECTANGLE],
            64,
            0x3FFFFC0,
            16,
        )],
    )
}

fn modes(page: &mut Page<impl Write>) -> io::Result<()> {
    pictures(
        page,
        &[
            (
                "modes set twice",
                &[ONE_CYCLE, IMAGE, SCISSOR, COLOR, FILL, RECTANGLE],
            ),
            (
                "modes set after the draw",
                &[FILL, IMAGE, SCISSOR, COLOR, RECTANGLE, PIPE_SYNC, ONE_CYCLE],
            ),
        ],
    )
}

fn other_commands(page: &mut Page<impl Write>) -> io::Result<()> {
    pictures(
        page,
        &[
            ("no draw", &[FILL, IMAGE, SCISSOR, COLOR]),
            (
                "Sync Full last",
                &[FILL, IMAGE, SCISSOR, COLOR, RECTANGLE, FULL_SYNC],
            ),
            // No operations, a Set Tile and a load.
            (
                "other commands between",
                &[
                    0,
                    FILL,
                    0x00_FFFFFFFFFFFFFF,
                    IMAGE,
                    TEXTURE,
                    TILE,
                    LOAD,
                    LOAD_SYNC,
                    SCISSOR,
                    0x40_FFFFFFFFFFFFFF,
                    COLOR,
                    0xC0_FFFFFFFFFFFFFF,
                    RECTANGLE,
                ],
            ),
            (
                "unassigned number",
                &[FILL, IMAGE, SCISSOR, COLOR, RECTANGLE, 0x31_00000000000000],
            ),
        ],
    )
}

fn unused_bits(page: &mut Page<impl Write>) -> io::Result<()> {
    pictures(
        page,
        &[
            (
                "unused bits set",
                &[
                    0xEF_30_0000_00000000,
                    0xFF_17_FC07_FC000000,
                    0xED_000_000_FC_020_010,
                    0xF7_FFFFFF_F801003F,
                    0xF6_008_008_FF_004_004,
                ],
            ),
            (
                "every mode set",
                &[0x2F_FF_FFFF_FFFFFFFF, IMAGE, SCISSOR, COLOR, RECTANGLE],
            ),
        ],
    )
}
