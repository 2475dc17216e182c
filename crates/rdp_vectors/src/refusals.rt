// Commands that can't be encoded or made, beside their neighbours that can. Each answer has a line. tools/vectors.py has the answers in this order.
use crate::text;
use rdp_command::*;
use rdp_words::Answer;
use std::io;
use std::io::Write;

pub fn show_refusals(out: &mut impl Write) -> io::Result<()> {
    fields_beyond_their_bits(out)?;
    images_beyond_their_bits(out)?;
    triangles_beyond_their_bits(out)?;
    numbers_of_names(out)?;
    wrong_suffixes(out)?;
    short_outputs(out)?;
    order_of_refusals(out)?;
    short_numbers(out)?;
    wrong_numbers(out)?;
    wrong_signed_numbers(out)?;
    wrong_triangles(out)?;
    words_beyond_a_list(out)
}

// Encodes with a suffix of as many zeros, at most 192, into room bytes, at most 184.
fn show_encoding(
    out: &mut impl Write,
    command: Command,
    suffix: usize,
    room: usize,
) -> io::Result<()> {
    let zeros = [0u8; 192];
    let mut encoded = [255u8; 184];
    text::answer(
        out,
        rdp_encode::encode(
            command,
            &zeros[..suffix.min(192)],
            &mut encoded[..room.min(184)],
        ),
    )
}

// Encodes with no suffix where there is room.
fn show_encoded(out: &mut impl Write, command: Command) -> io::Result<()> {
    show_encoding(out, command, 0, 184)
}

// Writes the fields into room numbers, at most 37.
fn show_fields(out: &mut impl Write, command: Command, room: usize) -> io::Result<()> {
    let mut numbers = [0u64; 37];
    text::answer(
        out,
        rdp_encode::fields(command, &mut numbers[..room.min(37)]),
    )
}

// The refusal, or the count of fields.
fn made(number: u32, numbers: &[u64]) -> Answer {
    let command = rdp_encode::from_fields(number, numbers)?;
    rdp_encode::fields(command, &mut [0u64; 37])
}

fn rectangle(x: u16) -> Command {
    Command::FillRectangle(Rectangle {
        lower_right: Corner { x, y: 0 },
        upper_left: Corner { x: 0, y: 0 },
    })
}

fn image(width: u16, address: u32) -> Image {
    Image {
        format: 0,
        size: 0,
        width,
        address,
    }
}

fn fields_beyond_their_bits(out: &mut impl Write) -> io::Result<()> {
    show_encoded(out, rectangle(4096))?;
    show_encoded(out, rectangle(4095))?;
    let corner = TexelCorner { s: 0, t: 0 };
    let area = TileArea {
        upper_left: corner,
        tile: 8,
        lower_right: corner,
    };
    show_encoded(out, Command::SetTileSize(area))?;
    let convert = Convert {
        k0: 511,
        k1: 511,
        k2: 512,
        k3: 511,
        k4: 511,
        k5: 511,
    };
    show_encoded(out, Command::SetConvert(convert))?;
    show_encoded(out, Command::SetCombineMode(0x100_0000_0000_0000))
}

fn images_beyond_their_bits(out: &mut impl Write) -> io::Result<()> {
    show_encoded(out, Command::SetDepthImage(0x100_0000))?;
    show_encoded(out, Command::SetTextureImage(image(0, 0x100_0000)))?;
    for (width, address) in [(0, 0x100_0000), (0, 0x400_0000), (1024, 0)] {
        show_encoded(out, Command::SetColorImage(image(width, address)))?;
    }
    Ok(())
}

const EDGE: Edge = Edge {
    x: Fixed { i: 0, f: 0 },
    dxdy: Fixed { i: 0, f: 0 },
};

// A triangle whose fields are all 0.
const TRIANGLE: TriangleBase = TriangleBase {
    shade: false,
    texture: false,
    zbuffer: false,
    lmajor: false,
    level: 0,
    tile: 0,
    yl: 0,
    ym: 0,
    yh: 0,
    l: EDGE,
    h: EDGE,
    m: EDGE,
};

// A triangle with its flags.
fn triangle(shade: bool, texture: bool, zbuffer: bool) -> Command {
    Command::FillTriangle(TriangleBase {
        shade,
        texture,
        zbuffer,
        ..TRIANGLE
    })
}

// A height, and the integer parts of the x and of the slope of an edge.
fn triangles_beyond_their_bits(out: &mut impl Write) -> io::Result<()> {
    for yl in [8191, 8192, -8192, -8193] {
        show_encoded(out, Command::FillTriangle(TriangleBase { yl, ..TRIANGLE }))?;
    }
    for i in [2047, 2048, -2048, -2049] {
        let x = Fixed { i, f: 0 };
        let l = Edge { x, ..EDGE };
        show_encoded(out, Command::FillTriangle(TriangleBase { l, ..TRIANGLE }))?;
    }
    for i in [8191, 8192, -8192, -8193] {
        let dxdy = Fixed { i, f: 0 };
        let l = Edge { dxdy, ..EDGE };
        show_encoded(out, Command::FillTriangle(TriangleBase { l, ..TRIANGLE }))?;
    }
    Ok(())
}

// Numbers that a no operation or an unassigned command has, and others.
fn numbers_of_names(out: &mut impl Write) -> io::Result<()> {
    for number in [0x00, 0x01, 0x23, 0x24, 0x08, 0x26, 0x29, 0x30, 0x40, 0xFF] {
        show_encoded(out, Command::NoOperation(number))?;
    }
    for number in [
        0x00, 0x01, 0x07, 0x08, 0x0F, 0x10, 0x23, 0x24, 0x31, 0x41, 0xFF,
    ] {
        show_encoded(out, Command::Unassigned(number))?;
    }
    Ok(())
}

fn wrong_suffixes(out: &mut impl Write) -> io::Result<()> {
    for (command, suffix) in [
        (triangle(false, false, false), 8),
        (triangle(true, false, false), 64),
        (triangle(true, false, false), 63),
        (triangle(true, false, false), 65),
        (triangle(false, false, true), 0),
        (triangle(false, true, true), 80),
        (triangle(true, true, true), 136),
        (Command::SyncPipe, 8),
        (Command::SyncPipe, 1),
    ] {
        show_encoding(out, command, suffix, 184)?;
    }
    Ok(())
}

fn short_outputs(out: &mut impl Write) -> io::Result<()> {
    for room in [0, 7, 8] {
        show_encoding(out, Command::SyncPipe, 0, room)?;
    }
    for room in [31, 32] {
        show_encoding(out, triangle(false, false, false), 0, room)?;
    }
    for room in [175, 176] {
        show_encoding(out, triangle(true, true, true), 144, room)?;
    }
    Ok(())
}

// 15 comes before 14.
fn order_of_refusals(out: &mut impl Write) -> io::Result<()> {
    show_encoding(out, rectangle(4096), 0, 0)?;
    show_encoding(out, Command::SyncPipe, 8, 0)?;
    show_encoding(out, Command::NoOperation(0x24), 0, 0)
}

fn short_numbers(out: &mut impl Write) -> io::Result<()> {
    show_fields(out, rectangle(0), 3)?;
    show_fields(out, rectangle(0), 4)?;
    show_fields(out, Command::SyncPipe, 0)?;
    show_fields(out, Command::SetCombineMode(0), 0)
}

// Numbers of commands with fields that they don't have.
static WRONG: [(u32, &[u64]); 11] = [
    (0x27, &[]),
    (0x27, &[0]),
    (0x36, &[1, 2, 3]),
    (0x36, &[1, 2, 3, 4]),
    (0x36, &[1, 2, 3, 4, 5]),
    (0x36, &[1, 2, 3, 4096]),
    (0x36, &[1, 2, 3, 0x8000_0000_0000_0000]),
    (0x2A, &[4096, 0, 0, 0, 0, 0]),
    (0x32, &[4096, 0, 0, 0, 0]),
    (0x40, &[]),
    (0xFFFF_FFFF, &[]),
];

fn wrong_numbers(out: &mut impl Write) -> io::Result<()> {
    for (number, numbers) in &WRONG {
        text::answer(out, made(*number, numbers))?;
    }
    Ok(())
}

// -32768, and -32769; 32767, and 32768; -1, and 65535.
fn wrong_signed_numbers(out: &mut impl Write) -> io::Result<()> {
    let least = 0xFFFF_FFFF_FFFF_8000;
    let minus_one = 0xFFFF_FFFF_FFFF_FFFF;
    for (s, t, dsdx) in [
        (least, 32767, minus_one),
        (least - 1, 32767, minus_one),
        (least, 32768, minus_one),
        (least, 32767, 65535),
    ] {
        text::answer(out, made(0x24, &[1, 2, 3, 4, 5, s, t, dsdx, 0]))?;
    }
    Ok(())
}

// A triangle of its number, its flags and yl.
fn made_triangle(number: u32, [shade, texture, zbuffer]: [u64; 3], yl: u64) -> Answer {
    let mut numbers = [0u64; 21];
    numbers[0] = shade;
    numbers[1] = texture;
    numbers[2] = zbuffer;
    numbers[6] = yl;
    made(number, &numbers)
}

// Flags that contradict the number, and yl: -8192, -8193, 8192 and -1 in 14 bits.
fn wrong_triangles(out: &mut impl Write) -> io::Result<()> {
    for (number, flags, yl) in [
        (0x0F, [1, 1, 1], 0),
        (0x0F, [0, 1, 1], 0),
        (0x0F, [1, 0, 1], 0),
        (0x0F, [1, 1, 0], 0),
        (0x0F, [2, 1, 1], 0),
        (0x08, [0, 0, 0], 0),
        (0x08, [0, 0, 1], 0),
        (0x0A, [0, 1, 0], 0xFFFF_FFFF_FFFF_E000),
        (0x0A, [0, 1, 0], 0xFFFF_FFFF_FFFF_DFFF),
        (0x0A, [0, 1, 0], 8192),
        (0x0A, [0, 1, 0], 0x3FFF),
    ] {
        text::answer(out, made_triangle(number, flags, yl))?;
    }
    Ok(())
}

// A place past the whole words of a list has the word 0.
fn words_beyond_a_list(out: &mut impl Write) -> io::Result<()> {
    for place in [0, 1, 0x2000_0000_0000_0000] {
        write!(out, " {:016x}", rdp_words::word_at(&[255u8; 15], place))?;
    }
    writeln!(out)
}
