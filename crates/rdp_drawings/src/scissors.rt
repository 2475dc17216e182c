// Which pixels of an image of 8 by 4 the scissor keeps.
use crate::show::{Page, picture, pictures};
use rdp_text::words::*;
use std::io;
use std::io::Write;

pub fn show_scissors(page: &mut Page<impl Write>) -> io::Result<()> {
    right_and_lower_edges(page)?;
    left_and_upper_edges(page)?;
    no_pixels(page)?;
    changed_scissor(page)
}

// Fills the whole image under a scissor.
fn scissored(page: &mut Page<impl Write>, cases: &[(&str, u64)]) -> io::Result<()> {
    for &(name, scissor) in cases {
        picture(page, name, &[FILL, IMAGE, scissor, COLOR, WHOLE])?;
    }
    Ok(())
}

fn right_and_lower_edges(page: &mut Page<impl Write>) -> io::Result<()> {
    scissored(
        page,
        &[
            ("scissor, right edge 8", 0x2D_000_000_00_008_010),
            ("scissor, right edge 9", 0x2D_000_000_00_009_010),
            ("scissor, lower edge 8", 0x2D_000_000_00_020_008),
            ("scissor, lower edge 9", 0x2D_000_000_00_020_009),
        ],
    )
}

fn left_and_upper_edges(page: &mut Page<impl Write>) -> io::Result<()> {
    scissored(
        page,
        &[
            ("scissor, left and upper edge 4", 0x2D_004_004_00_020_010),
            ("scissor, left and upper edge 5", 0x2D_005_005_00_020_010),
            (
                "scissor, left edge 7, upper edge 3",
                0x2D_007_003_00_020_010,
            ),
            // The first quarter of pixel (2, 1).
            ("scissor of a quarter", 0x2D_008_004_00_009_005),
        ],
    )
}

fn no_pixels(page: &mut Page<impl Write>) -> io::Result<()> {
    scissored(
        page,
        &[
            // The last three quarters of column 1.
            ("scissor without the first quarter", 0x2D_005_000_00_008_010),
            ("scissor, right edge 0", 0x2D_000_000_00_000_010),
            ("scissor, lower edge 0", 0x2D_000_000_00_020_000),
            (
                "scissor, right edge left of the left one",
                0x2D_010_000_00_008_010,
            ),
            (
                "scissor, lower edge above the upper one",
                0x2D_000_00C_00_020_004,
            ),
        ],
    )?;
    pictures(
        page,
        &[(
            "scissor right of the rectangle",
            &[FILL, IMAGE, 0x2D_00C_000_00_020_010, COLOR, RECTANGLE],
        )],
    )
}

// It requires no sync.
fn changed_scissor(page: &mut Page<impl Write>) -> io::Result<()> {
    pictures(
        page,
        &[(
            "two scissors",
            &[
                FILL,
                IMAGE,
                0x2D_000_000_00_008_004,
                COLOR,
                WHOLE,
                0x2D_010_008_00_020_010,
                WHOLE,
            ],
        )],
    )
}
