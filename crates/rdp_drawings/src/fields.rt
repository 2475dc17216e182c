// Which rows a scissor with its field bit keeps: the odd ones with its odd bit, else the even ones.
use crate::show::{Page, drawing, drawings, picture};
use rdp_text::words::*;
use std::io;
use std::io::Write;

// 8 by 4 pixels.
const ODD: u64 = 0x2D_000_000_03_020_010;

const EVEN: u64 = 0x2D_000_000_02_020_010;
// All pixels.
const OPEN_ODD: u64 = 0x2D_000_000_03_FFF_FFF;

const OPEN_EVEN: u64 = 0x2D_000_000_02_FFF_FFF;
// Row 2 of 8 pixels.
const ROW_2: u64 = 0x36_01C_008_00_000_008;

pub fn show_fields(page: &mut Page<impl Write>) -> io::Result<()> {
    whole_images(page)?;
    few_rows(page)?;
    short_memory(page)?;
    other_widths(page)
}

// Fills a rectangle of the image of 8 by 4 pixels.
fn under_field(page: &mut Page<impl Write>, cases: &[(&str, u64, u64)]) -> io::Result<()> {
    for &(name, scissor, rectangle) in cases {
        picture(page, name, &[FILL, IMAGE, scissor, COLOR, rectangle])?;
    }
    Ok(())
}

fn whole_images(page: &mut Page<impl Write>) -> io::Result<()> {
    under_field(
        page,
        &[
            ("field, odd", ODD, WHOLE),
            ("field, even", EVEN, WHOLE),
            ("odd without field", 0x2D_000_000_01_020_010, WHOLE),
            ("field, odd, from row 2 on", 0x2D_000_008_03_020_010, WHOLE),
        ],
    )
}

fn few_rows(page: &mut Page<impl Write>) -> io::Result<()> {
    under_field(
        page,
        &[
            ("field, odd, rows 1 and 2", ODD, RECTANGLE),
            ("field, even, rows 1 and 2", EVEN, RECTANGLE),
            ("field, odd, row 2 alone", ODD, ROW_2),
            ("field, even, row 2 alone", EVEN, ROW_2),
        ],
    )?;
    drawings(
        page,
        &[(
            "field, odd, row 2 alone, no memory",
            &[FILL, IMAGE, ODD, COLOR, ROW_2],
            0,
            0,
            16,
        )],
    )
}

// Fills the whole image where memory has three of its rows.
fn in_three_rows(page: &mut Page<impl Write>, cases: &[(&str, u64, u64)]) -> io::Result<()> {
    for &(name, scissor, start) in cases {
        drawing(
            page,
            name,
            &[FILL, IMAGE, scissor, COLOR, WHOLE],
            48,
            start,
            16,
        )?;
    }
    Ok(())
}

fn short_memory(page: &mut Page<impl Write>) -> io::Result<()> {
    in_three_rows(
        page,
        &[
            ("field, odd, 48 bytes", ODD, 0),
            ("field, even, 48 bytes", EVEN, 0),
            ("field, odd, start 16", ODD, 16),
            ("field, even, start 16", EVEN, 16),
        ],
    )
}

fn other_widths(page: &mut Page<impl Write>) -> io::Result<()> {
    drawings(
        page,
        &[
            (
                "field, odd, width 7",
                &[FILL, IMAGE_OF_7, OPEN_ODD, DIGITS, 0x36_014_010_00_004_000],
                70,
                0,
                14,
            ),
            // 8 pixels on a width of 4: the kept rows are adjacent.
            (
                "field, even, 8 pixels on 4",
                &[FILL, IMAGE_OF_4, OPEN_EVEN, DIGITS, 0x36_01C_00C_00_000_000],
                40,
                0,
                8,
            ),
            // 5 pixels on a width of 2: they overlap.
            (
                "field, odd, 5 pixels on 2",
                &[
                    FILL,
                    0x3F_10_0001_00000000,
                    OPEN_ODD,
                    DIGITS,
                    0x36_010_014_00_000_004,
                ],
                36,
                0,
                4,
            ),
        ],
    )
}
