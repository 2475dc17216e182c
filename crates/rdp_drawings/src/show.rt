// Lists, drawn into memory of which the bytes are printed. A case is a name, the words of its list, and what the memory is.
use rdp_words::Answer;
use std::io;
use std::io::Write;

// What is printed to.
#[derive(Drop)]
pub struct Page<W> {
    pub out: W,
}

// At most 512 bytes in rows, each row on a line after the present one.
fn print_rows(page: &mut Page<impl Write>, bytes: &[u8], row: usize) -> io::Result<()> {
    let mut text = [0u8; 1536];
    let length = bytes.len().saturating_mul(3);
    let rows = text.get_mut(..length).ok_or(io::ErrorKind::InvalidInput)?;
    rdp_text::spell(bytes, row, rows);
    page.out.write_all(rows)
}

// A sum modulo 2^32 - 1.
fn sum(a: u32, b: u32) -> u32 {
    ((u64::from(a) + u64::from(b)) % 4294967295) as u32
}

// Fletcher's checksum of the whole words of four bytes, which tells their order too.
fn checksum(bytes: &[u8]) -> u64 {
    let mut a = 0;
    let mut b = 0;
    for four in bytes.as_chunks::<4>().0 {
        a = sum(a, u32::from_be_bytes(*four));
        b = sum(b, a);
    }
    (u64::from(b) << 32) | u64::from(a)
}

fn print_answer(page: &mut Page<impl Write>, name: &str, answer: Answer) -> io::Result<()> {
    match answer {
        Ok(count) => write!(page.out, "\n{name}: 0 {count}"),
        Err(refusal) => {
            write!(
                page.out,
                "\n{name}: {} {}",
                u32::from(refusal.ground),
                refusal.place
            )
        }
    }
}

// Draws the list with texture memory of zeros.
fn draw(
    page: &mut Page<impl Write>,
    name: &str,
    list: &[u8],
    memory: &mut [u8],
    start: u64,
) -> io::Result<()> {
    let answer = rdp_draw::draw(list, memory, start, &mut [0u8; 4096]);
    print_answer(page, name, answer)
}

// Draws the list of at most 32 words.
fn draw_words(
    page: &mut Page<impl Write>,
    name: &str,
    words: &[u64],
    memory: &mut [u8],
    start: u64,
) -> io::Result<()> {
    let mut bytes = [0u8; 256];
    let length = 8 * words.len();
    let list = bytes.get_mut(..length).ok_or(io::ErrorKind::InvalidInput)?;
    rdp_text::lay(words, list);
    draw(page, name, list, memory, start)
}

// Draws a list into memory of `length` bytes `before`, at most 512, that starts at address `start`, and prints it in rows of `row` bytes.
fn draw_in_rows(
    page: &mut Page<impl Write>,
    name: &str,
    words: &[u64],
    before: u8,
    length: usize,
    start: u64,
    row: usize,
) -> io::Result<()> {
    let mut bytes = [before; 512];
    let memory = bytes.get_mut(..length).ok_or(io::ErrorKind::InvalidInput)?;
    draw_words(page, name, words, memory, start)?;
    print_rows(page, memory, row)?;
    writeln!(page.out)
}

pub fn drawing(
    page: &mut Page<impl Write>,
    name: &str,
    words: &[u64],
    length: usize,
    start: u64,
    row: usize,
) -> io::Result<()> {
    draw_in_rows(page, name, words, 0x55, length, start, row)
}

// Into four rows of 16 bytes from address 0 on.
pub fn picture(page: &mut Page<impl Write>, name: &str, words: &[u64]) -> io::Result<()> {
    drawing(page, name, words, 64, 0, 16)
}

// Cases with the length and the start of their memory, and the length of a row.
pub fn drawings(
    page: &mut Page<impl Write>,
    cases: &[(&str, &[u64], usize, u64, usize)],
) -> io::Result<()> {
    for &(name, words, length, start, row) in cases {
        drawing(page, name, words, length, start, row)?;
    }
    Ok(())
}

pub fn pictures(page: &mut Page<impl Write>, cases: &[(&str, &[u64])]) -> io::Result<()> {
    for &(name, words) in cases {
        picture(page, name, words)?;
    }
    Ok(())
}

// The same on zeros.
pub fn pictures_on_zeros(page: &mut Page<impl Write>, cases: &[(&str, &[u64])]) -> io::Result<()> {
    for &(name, words) in cases {
        draw_in_rows(page, name, words, 0, 64, 0, 16)?;
    }
    Ok(())
}

// Lists of so many zeros, at most 32,769, into four bytes.
pub fn drawings_of_zeros(page: &mut Page<impl Write>, cases: &[(&str, usize)]) -> io::Result<()> {
    let zeros = [0u8; 32769];
    for &(name, length) in cases {
        let list = zeros.get(..length).ok_or(io::ErrorKind::InvalidInput)?;
        let mut memory = [0x55u8; 4];
        draw(page, name, list, &mut memory, 0)?;
        print_rows(page, &memory, 4)?;
        writeln!(page.out)?;
    }
    Ok(())
}

// Into memory of at most 153,600 bytes: 320 by 240 pixels of 16 bits.
fn draw_long(
    page: &mut Page<impl Write>,
    name: &str,
    words: &[u64],
    length: usize,
    start: u64,
) -> io::Result<()> {
    let mut bytes = [0x55u8; 153600];
    let memory = bytes.get_mut(..length).ok_or(io::ErrorKind::InvalidInput)?;
    draw_words(page, name, words, memory, start)?;
    write!(page.out, ", checksum {:016x}", checksum(memory))?;
    print_rows(page, &memory[..memory.len().min(16)], 16)?;
    print_rows(page, &memory[memory.len().saturating_sub(16)..], 16)?;
    writeln!(page.out)
}

// Cases with the length and the start of their memory.
pub fn long_drawings(
    page: &mut Page<impl Write>,
    cases: &[(&str, &[u64], usize, u64)],
) -> io::Result<()> {
    for &(name, words, length, start) in cases {
        draw_long(page, name, words, length, start)?;
    }
    Ok(())
}
