// Fills of many bytes, on memory of a length and a start.
use crate::show::{Page, long_drawings};
use rdp_text::words::*;
use std::io;
use std::io::Write;

pub fn show_long(page: &mut Page<impl Write>) -> io::Result<()> {
    screen(page)?;
    long_runs(page)?;
    runs_of_some_256_bytes(page)
}

// 16 bits, 320 wide: the whole as one run, and inside it every second row of (10, 20) to (309, 219).
fn screen(page: &mut Page<impl Write>) -> io::Result<()> {
    long_drawings(
        page,
        &[(
            "320 by 240, then odd rows of 300 by 200",
            &[
                FILL,
                0x3F_10_013F_00000000,
                OPEN,
                COLOR,
                0x36_4FC_3BC_00_000_000,
                PIPE_SYNC,
                DIGITS,
                0x2D_000_000_03_FFF_FFF,
                0x36_4D4_36C_00_028_050,
            ],
            153600,
            0,
        )],
    )
}

fn long_runs(page: &mut Page<impl Write>) -> io::Result<()> {
    long_drawings(
        page,
        &[
            // 32 bits: a row of 513 pixels.
            (
                "2,052 bytes, start 62",
                &[
                    FILL,
                    0x3F_18_03FF_00000040,
                    OPEN,
                    DIGITS,
                    0x36_800_000_00_000_000,
                ],
                2060,
                62,
            ),
            // 8 bits, 1,021 wide: rows 0 to 2, adjacent, which are 3,063 bytes.
            (
                "3,063 bytes, start 61",
                &[
                    FILL,
                    0x3F_08_03FC_00000040,
                    OPEN,
                    DIGITS,
                    0x36_FF0_008_00_000_000,
                ],
                3072,
                61,
            ),
        ],
    )
}

// 8 bits, 263 wide: 255, 256 and 257 bytes from columns 1, 2 and 3.
fn runs_of_some_256_bytes(page: &mut Page<impl Write>) -> io::Result<()> {
    long_drawings(
        page,
        &[(
            "255, 256 and 257 bytes",
            &[
                FILL,
                0x3F_08_0106_00000000,
                OPEN,
                DIGITS,
                0x36_3FC_004_00_004_000,
                0x36_404_00C_00_008_008,
                0x36_40C_014_00_00C_010,
            ],
            1580,
            0,
        )],
    )
}
