// Which bytes a rectangle covers, on images of each size and width.
use crate::show::{Page, drawing, drawings, picture, pictures, pictures_on_zeros};
use rdp_text::words::*;
use std::io;
use std::io::Write;

pub fn show_shapes(page: &mut Page<impl Write>) -> io::Result<()> {
    examples(page)?;
    quarter_pixels(page)?;
    no_pixels(page)?;
    overlaps(page)?;
    apart(page)?;
    sizes(page)?;
    odd_widths(page)?;
    wide_rectangles(page)?;
    stairs(page)
}

// Fills a rectangle of the image of 8 by 4 pixels.
fn covered(page: &mut Page<impl Write>, cases: &[(&str, u64)]) -> io::Result<()> {
    for &(name, rectangle) in cases {
        picture(page, name, &[FILL, IMAGE, SCISSOR, COLOR, rectangle])?;
    }
    Ok(())
}

// The same on the first bytes of memory.
fn covered_of(page: &mut Page<impl Write>, cases: &[(&str, u64, usize)]) -> io::Result<()> {
    for &(name, rectangle, length) in cases {
        drawing(
            page,
            name,
            &[FILL, IMAGE, SCISSOR, COLOR, rectangle],
            length,
            0,
            16,
        )?;
    }
    Ok(())
}

fn examples(page: &mut Page<impl Write>) -> io::Result<()> {
    pictures_on_zeros(
        page,
        &[
            // Bytes 18 to 21 and 34 to 37 become 00 3F F8 01.
            ("I", &[FILL, IMAGE, SCISSOR, COLOR, RECTANGLE]),
        ],
    )?;
    covered_of(
        page,
        &[
            ("I on 37 bytes", RECTANGLE, 37),
            ("I on 38 bytes", RECTANGLE, 38),
        ],
    )?;
    drawings(
        page,
        &[
            // Pixel (0, 1) takes the lower half of the colour.
            (
                "O",
                &[FILL, IMAGE_OF_7, SCISSOR, COLOR, 0x36_000_004_00_000_004],
                28,
                0,
                14,
            ),
        ],
    )
}

fn quarter_pixels(page: &mut Page<impl Write>) -> io::Result<()> {
    covered(
        page,
        &[
            ("right and lower edge 7", 0x36_007_007_00_000_000),
            ("right and lower edge 8", 0x36_008_008_00_000_000),
            ("left and upper edge 7", 0x36_01C_00C_00_007_007),
            // From the last quarter of pixel (1, 1) to its first.
            ("edges 7 to 4", 0x36_004_004_00_007_007),
        ],
    )
}

fn no_pixels(page: &mut Page<impl Write>) -> io::Result<()> {
    covered(page, &[("no column", NO_COLUMN), ("no row", NO_ROW)])?;
    covered_of(
        page,
        &[
            ("no column, no memory", NO_COLUMN, 0),
            ("no row, no memory", NO_ROW, 0),
        ],
    )?;
    drawings(
        page,
        &[(
            "from the last pixel to the first",
            &[FILL, IMAGE, OPEN, COLOR, 0x36_000_000_00_FFF_FFF],
            0,
            0,
            16,
        )],
    )
}

fn overlaps(page: &mut Page<impl Write>) -> io::Result<()> {
    pictures(
        page,
        &[
            // (1, 1) to (2, 2), and (2, 2) to (5, 3), in both orders.
            (
                "two colours",
                &[
                    FILL,
                    IMAGE,
                    SCISSOR,
                    COLOR,
                    RECTANGLE,
                    PIPE_SYNC,
                    DIGITS,
                    0x36_014_00C_00_008_008,
                ],
            ),
            (
                "two colours, the other first",
                &[
                    FILL,
                    IMAGE,
                    SCISSOR,
                    DIGITS,
                    0x36_014_00C_00_008_008,
                    PIPE_SYNC,
                    COLOR,
                    RECTANGLE,
                ],
            ),
        ],
    )
}

fn apart(page: &mut Page<impl Write>) -> io::Result<()> {
    pictures(
        page,
        &[(
            "three rectangles",
            &[
                FILL,
                IMAGE,
                SCISSOR,
                COLOR,
                0x36_000_000_00_000_000,
                RECTANGLE,
                0x36_01C_00C_00_01C_00C,
            ],
        )],
    )
}

fn sizes(page: &mut Page<impl Write>) -> io::Result<()> {
    pictures(
        page,
        &[
            // 8 bits, 16 wide, pixels (1, 1) to (6, 2).
            (
                "8 bits",
                &[
                    FILL,
                    0x3F_08_000F_00000000,
                    OPEN,
                    DIGITS,
                    0x36_018_008_00_004_004,
                ],
            ),
            // 32 bits, 4 wide.
            (
                "32 bits",
                &[FILL, 0x3F_18_0003_00000000, OPEN, DIGITS, RECTANGLE],
            ),
            (
                "16 bits, another format",
                &[FILL, 0x3F_F0_0007_00000000, SCISSOR, COLOR, RECTANGLE],
            ),
        ],
    )
}

fn odd_widths(page: &mut Page<impl Write>) -> io::Result<()> {
    drawings(
        page,
        &[
            (
                "16 bits, width 7",
                &[FILL, IMAGE_OF_7, OPEN, DIGITS, 0x36_014_00C_00_004_000],
                56,
                0,
                14,
            ),
            (
                "8 bits, width 7",
                &[
                    FILL,
                    0x3F_08_0006_00000000,
                    OPEN,
                    DIGITS,
                    0x36_014_010_00_004_000,
                ],
                35,
                0,
                7,
            ),
            (
                "8 bits, width 1",
                &[
                    FILL,
                    0x3F_08_0000_00000000,
                    OPEN,
                    DIGITS,
                    0x36_000_014_00_000_004,
                ],
                8,
                0,
                1,
            ),
        ],
    )
}

// On a width of 4 pixels.
fn on_four_pixels(page: &mut Page<impl Write>, cases: &[(&str, u64, usize)]) -> io::Result<()> {
    for &(name, rectangle, length) in cases {
        drawing(
            page,
            name,
            &[FILL, IMAGE_OF_4, OPEN, DIGITS, rectangle],
            length,
            0,
            8,
        )?;
    }
    Ok(())
}

fn wide_rectangles(page: &mut Page<impl Write>) -> io::Result<()> {
    on_four_pixels(
        page,
        &[
            // Columns 0 to 5: a row goes on into the next.
            ("wider than the image", 0x36_014_008_00_000_000, 40),
            (
                "wider than the image, past memory",
                0x36_014_008_00_000_000,
                24,
            ),
            ("right of the image", 0x36_014_004_00_014_000, 32),
            ("as wide as the image", 0x36_00C_008_00_000_004, 32),
        ],
    )
}

// Twenty rows of 1 to 20 pixels of 8 bits, on a width of 23. With four starts, each length begins at each place of the colour and of memory.
const STAIRS: [u64; 24] = [
    FILL,
    0x3F_08_0016_00000040,
    OPEN,
    DIGITS,
    0x36_000_000_00_000_000,
    0x36_004_004_00_000_004,
    0x36_008_008_00_000_008,
    0x36_00C_00C_00_000_00C,
    0x36_010_010_00_000_010,
    0x36_014_014_00_000_014,
    0x36_018_018_00_000_018,
    0x36_01C_01C_00_000_01C,
    0x36_020_020_00_000_020,
    0x36_024_024_00_000_024,
    0x36_028_028_00_000_028,
    0x36_02C_02C_00_000_02C,
    0x36_030_030_00_000_030,
    0x36_034_034_00_000_034,
    0x36_038_038_00_000_038,
    0x36_03C_03C_00_000_03C,
    0x36_040_040_00_000_040,
    0x36_044_044_00_000_044,
    0x36_048_048_00_000_048,
    0x36_04C_04C_00_000_04C,
];

fn stairs_from(page: &mut Page<impl Write>, cases: &[(&str, u64)]) -> io::Result<()> {
    for &(name, start) in cases {
        drawing(page, name, &STAIRS, 460, start, 23)?;
    }
    Ok(())
}

fn stairs(page: &mut Page<impl Write>) -> io::Result<()> {
    stairs_from(
        page,
        &[
            ("stairs", 64),
            ("stairs, start 63", 63),
            ("stairs, start 62", 62),
            ("stairs, start 61", 61),
        ],
    )
}
