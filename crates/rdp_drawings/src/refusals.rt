// Lists that are refused. Memory stays as it was, also where an earlier draw is not refused.
use crate::show::{Page, drawings, picture, pictures};
use rdp_text::words::*;
use std::io;
use std::io::Write;

pub fn show_refusals(page: &mut Page<impl Write>) -> io::Result<()> {
    other_draws(page)?;
    other_modes(page)?;
    addresses(page)?;
    later_draws(page)?;
    order_at_one_draw(page)?;
    order_of_draws(page)?;
    refusals_of_the_check(page)?;
    check_before_draws(page)
}

// Fills pixels (1, 1) to (2, 2) in some mode, on some image.
fn one_draw(page: &mut Page<impl Write>, cases: &[(&str, u64, u64)]) -> io::Result<()> {
    for &(name, modes, image) in cases {
        picture(page, name, &[modes, image, SCISSOR, COLOR, RECTANGLE])?;
    }
    Ok(())
}

fn other_draws(page: &mut Page<impl Write>) -> io::Result<()> {
    pictures(
        page,
        &[
            (
                "triangle",
                &[FILL, IMAGE, SCISSOR, COLOR, TRIANGLE, 0, 0, 0],
            ),
            (
                "texture rectangle",
                &[FILL, IMAGE, SCISSOR, COLOR, TEXTURE_RECTANGLE, 0],
            ),
            (
                "texture rectangle flip",
                &[FILL, IMAGE, SCISSOR, COLOR, 0x25_008_008_00_004_004, 0],
            ),
        ],
    )
}

fn other_modes(page: &mut Page<impl Write>) -> io::Result<()> {
    one_draw(
        page,
        &[
            ("one-cycle mode", ONE_CYCLE, IMAGE),
            ("two-cycle mode", 0x2F_10_0000_00000000, IMAGE),
            ("COPY mode", 0x2F_20_0000_00000000, IMAGE),
            // A 4-bit image is refused in FILL mode alone by the check.
            ("one-cycle mode, 4 bits", ONE_CYCLE, 0x3F_00_0007_00000000),
        ],
    )?;
    drawings(
        page,
        &[(
            "one-cycle mode, no row, no memory",
            &[ONE_CYCLE, IMAGE, SCISSOR, COLOR, NO_ROW],
            0,
            0,
            16,
        )],
    )
}

fn addresses(page: &mut Page<impl Write>) -> io::Result<()> {
    one_draw(
        page,
        &[
            ("address 32", FILL, IMAGE_AT_32),
            ("address 1", FILL, 0x3F_10_0007_00000001),
        ],
    )?;
    pictures(
        page,
        &[
            (
                "address 32, no column",
                &[FILL, IMAGE_AT_32, SCISSOR, COLOR, NO_COLUMN],
            ),
            ("address 32, no draw", &[FILL, IMAGE_AT_32, SCISSOR, COLOR]),
        ],
    )
}

fn later_draws(page: &mut Page<impl Write>) -> io::Result<()> {
    pictures(
        page,
        &[
            (
                "10 at the second draw",
                &[FILL, IMAGE, SCISSOR, COLOR, RECTANGLE, TEXTURE_RECTANGLE, 0],
            ),
            (
                "11 at the second draw",
                &[
                    FILL,
                    IMAGE,
                    SCISSOR,
                    COLOR,
                    RECTANGLE,
                    PIPE_SYNC,
                    IMAGE_AT_32,
                    RECTANGLE,
                ],
            ),
        ],
    )?;
    drawings(
        page,
        &[
            (
                "12 at the second draw",
                &[FILL, IMAGE, SCISSOR, COLOR, RECTANGLE, WHOLE],
                63,
                0,
                16,
            ),
            (
                "12 at the second of three draws",
                &[FILL, IMAGE, SCISSOR, COLOR, RECTANGLE, WHOLE, RECTANGLE],
                63,
                0,
                16,
            ),
        ],
    )
}

fn order_at_one_draw(page: &mut Page<impl Write>) -> io::Result<()> {
    one_draw(page, &[("10 before 11", ONE_CYCLE, IMAGE_AT_32)])?;
    drawings(
        page,
        &[
            (
                "10 before 12",
                &[ONE_CYCLE, IMAGE, SCISSOR, COLOR, RECTANGLE],
                0,
                0,
                16,
            ),
            (
                "11 before 12",
                &[FILL, IMAGE_AT_32, SCISSOR, COLOR, RECTANGLE],
                0,
                0,
                16,
            ),
        ],
    )
}

// On 37 bytes, one byte short.
fn order_of_draws(page: &mut Page<impl Write>) -> io::Result<()> {
    drawings(
        page,
        &[
            (
                "12, and 10 at a later draw",
                &[FILL, IMAGE, SCISSOR, COLOR, RECTANGLE, TRIANGLE, 0, 0, 0],
                37,
                0,
                16,
            ),
            (
                "10, and 12 at a later draw",
                &[FILL, IMAGE, SCISSOR, COLOR, TRIANGLE, 0, 0, 0, RECTANGLE],
                37,
                0,
                16,
            ),
            // The second word of a texture rectangle is no command.
            (
                "10, and 12 after a second word",
                &[
                    FILL,
                    IMAGE,
                    SCISSOR,
                    COLOR,
                    TEXTURE_RECTANGLE,
                    FULL_SYNC,
                    RECTANGLE,
                ],
                37,
                0,
                16,
            ),
        ],
    )
}

fn refusals_of_the_check(page: &mut Page<impl Write>) -> io::Result<()> {
    pictures(
        page,
        &[
            (
                "3 after a draw",
                &[FILL, IMAGE, SCISSOR, COLOR, RECTANGLE, TEXTURE_RECTANGLE],
            ),
            (
                "4 after a draw",
                &[FILL, IMAGE, SCISSOR, COLOR, RECTANGLE, FULL_SYNC, RECTANGLE],
            ),
            ("5, modes not set", &[IMAGE, SCISSOR, COLOR, RECTANGLE]),
            ("5, image not set", &[FILL, SCISSOR, COLOR, RECTANGLE]),
            ("5, scissor not set", &[FILL, IMAGE, COLOR, RECTANGLE]),
        ],
    )?;
    one_draw(page, &[("6, 4 bits", FILL, 0x3F_00_0007_00000000)])?;
    pictures(
        page,
        &[
            (
                "7 after a draw",
                &[FILL, IMAGE, SCISSOR, COLOR, RECTANGLE, LOAD],
            ),
            (
                "9 after a draw",
                &[FILL, IMAGE, SCISSOR, COLOR, RECTANGLE, DIGITS],
            ),
        ],
    )
}

// The draw is refused too.
fn check_before_draws(page: &mut Page<impl Write>) -> io::Result<()> {
    pictures(
        page,
        &[
            (
                "9 after 10",
                &[FILL, IMAGE, SCISSOR, COLOR, TRIANGLE, 0, 0, 0, COLOR],
            ),
            (
                "8 after 10",
                &[FILL, IMAGE, SCISSOR, COLOR, TEXTURE_RECTANGLE, 0, SET_TILE],
            ),
            (
                "9 after 11",
                &[FILL, IMAGE_AT_32, SCISSOR, COLOR, RECTANGLE, COLOR],
            ),
        ],
    )?;
    drawings(
        page,
        &[(
            "9 after 12",
            &[FILL, IMAGE, SCISSOR, COLOR, RECTANGLE, COLOR],
            37,
            0,
            16,
        )],
    )?;
    pictures(
        page,
        &[("5 at the draw of 10", &[ONE_CYCLE, IMAGE, COLOR, RECTANGLE])],
    )
}
