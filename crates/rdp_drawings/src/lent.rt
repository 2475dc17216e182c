// Memory that is lent: where it starts, and how long it is.
use crate::show::{Page, drawing, drawings, drawings_of_zeros};
use rdp_text::words::*;
use std::io;
use std::io::Write;

pub fn show_lent(page: &mut Page<impl Write>) -> io::Result<()> {
    starts_above(page)?;
    starts_below(page)?;
    lengths(page)?;
    starts_near_the_end(page)?;
    no_memory(page)?;
    plain_lists(page)
}

// Fills a rectangle of an image in memory of a length and a start.
fn lent(page: &mut Page<impl Write>, cases: &[(&str, u64, u64, usize, u64)]) -> io::Result<()> {
    for &(name, image, rectangle, length, start) in cases {
        drawing(
            page,
            name,
            &[FILL, image, SCISSOR, COLOR, rectangle],
            length,
            start,
            16,
        )?;
    }
    Ok(())
}

// The first byte that is drawn is at address 18, the last at 37.
fn starts_above(page: &mut Page<impl Write>) -> io::Result<()> {
    lent(
        page,
        &[
            ("start 17", IMAGE, RECTANGLE, 20, 17),
            ("start 18", IMAGE, RECTANGLE, 20, 18),
            ("start 19", IMAGE, RECTANGLE, 20, 19),
            ("start above the image", IMAGE, RECTANGLE, 64, 64),
            ("start 2^32", IMAGE, RECTANGLE, 64, 0x1_0000_0000),
        ],
    )
}

fn starts_below(page: &mut Page<impl Write>) -> io::Result<()> {
    lent(
        page,
        &[
            ("start 32 below the image", IMAGE_AT_64, RECTANGLE, 96, 32),
            ("start 3 below the image", IMAGE_AT_64, RECTANGLE, 48, 61),
            ("start 2 below the image", IMAGE_AT_64, RECTANGLE, 48, 62),
            ("start 1 below the image", IMAGE_AT_64, RECTANGLE, 48, 63),
            ("end below the image", IMAGE_AT_64, RECTANGLE, 64, 0),
        ],
    )
}

fn lengths(page: &mut Page<impl Write>) -> io::Result<()> {
    lent(
        page,
        &[
            ("start 32 below, 69 bytes", IMAGE_AT_64, RECTANGLE, 69, 32),
            ("start 32 below, 70 bytes", IMAGE_AT_64, RECTANGLE, 70, 32),
            ("whole image, 63 bytes", IMAGE, WHOLE, 63, 0),
            ("whole image, 64 bytes", IMAGE, WHOLE, 64, 0),
            ("whole image, start 1", IMAGE, WHOLE, 64, 1),
        ],
    )
}

// Addresses do not start again from 0 where memory passes 2^64.
fn starts_near_the_end(page: &mut Page<impl Write>) -> io::Result<()> {
    lent(
        page,
        &[
            (
                "start 2^64 - 16",
                IMAGE,
                RECTANGLE,
                64,
                0xFFFF_FFFF_FFFF_FFF0,
            ),
            (
                "start 2^64 - 64",
                IMAGE,
                RECTANGLE,
                128,
                0xFFFF_FFFF_FFFF_FFC0,
            ),
            ("start 2^64 - 1", IMAGE, RECTANGLE, 4, 0xFFFF_FFFF_FFFF_FFFF),
            (
                "start 2^64 - 1, no column",
                IMAGE,
                NO_COLUMN,
                4,
                0xFFFF_FFFF_FFFF_FFFF,
            ),
            (
                "start 2^64 - 16, no row",
                IMAGE,
                NO_ROW,
                32,
                0xFFFF_FFFF_FFFF_FFF0,
            ),
        ],
    )
}

fn no_memory(page: &mut Page<impl Write>) -> io::Result<()> {
    lent(
        page,
        &[
            ("no memory", IMAGE, RECTANGLE, 0, 0),
            ("no memory, start 18", IMAGE, RECTANGLE, 0, 18),
        ],
    )?;
    drawings(
        page,
        &[
            (
                "no memory, no kept pixel",
                &[FILL, IMAGE, 0x2D_000_000_00_000_000, COLOR, RECTANGLE],
                0,
                0,
                16,
            ),
            (
                "no memory, no draw",
                &[FILL, IMAGE, SCISSOR, COLOR],
                0,
                0,
                16,
            ),
        ],
    )
}

fn plain_lists(page: &mut Page<impl Write>) -> io::Result<()> {
    drawings(
        page,
        &[
            ("empty list", &[], 16, 0, 16),
            ("empty list, no memory", &[], 0, 0, 16),
        ],
    )?;
    drawings_of_zeros(page, &[("7 bytes", 7), ("32,769 bytes", 32769)])
}
