// Lists, drawn into four rows of 16 bytes from address 0 on, which are printed. A case is a name, and the words after those that fill.
use rdp_text::words::*;
use rdp_words::Answer;
use std::io;
use std::io::Write;

// What is printed to.
#[derive(Drop)]
pub struct Page<W> {
    pub out: W,
}

fn print_answer(page: &mut Page<impl Write>, name: &str, answer: Answer) -> io::Result<()> {
    match answer {
        Ok(count) => write!(page.out, "\n{name}: 0 {count}"),
        Err(refusal) => {
            write!(
                page.out,
                "\n{name}: {} {}",
                u32::from(refusal.ground),
                refusal.place
            )
        }
    }
}

fn print_memory(page: &mut Page<impl Write>, memory: &[u8; 64]) -> io::Result<()> {
    let mut text = [0u8; 192];
    rdp_text::spell(memory, 16, &mut text);
    page.out.write_all(&text)?;
    writeln!(page.out)
}

// What each list begins with: 48 bytes.
const FILLED: [u64; 6] = [FILL, IMAGE, SCISSOR, COLOR, RECTANGLE, PIPE_SYNC];

// Draws the list of FILLED and at most 26 further words with some texture memory.
fn draw_with(
    page: &mut Page<impl Write>,
    name: &str,
    words: &[u64],
    texture: &mut [u8],
) -> io::Result<()> {
    let mut bytes = [0u8; 256];
    let (first, further) = bytes.split_at_mut(48);
    rdp_text::lay(&FILLED, first);
    rdp_text::lay(words, further);
    let length = 48 + 8 * words.len();
    let list = bytes.get(..length).ok_or(io::ErrorKind::InvalidInput)?;
    let mut memory = [0x55u8; 64];
    let answer = rdp_draw::draw(list, &mut memory, 0, texture);
    print_answer(page, name, answer)?;
    print_memory(page, &memory)
}

// The same with texture memory of zeros.
pub fn after_fill(page: &mut Page<impl Write>, name: &str, words: &[u64]) -> io::Result<()> {
    draw_with(page, name, words, &mut [0u8; 4096])
}

pub fn after_fills(page: &mut Page<impl Write>, cases: &[(&str, &[u64])]) -> io::Result<()> {
    for &(name, words) in cases {
        after_fill(page, name, words)?;
    }
    Ok(())
}

// The same with a byte less.
pub fn after_fills_with_small_texture(
    page: &mut Page<impl Write>,
    cases: &[(&str, &[u64])],
) -> io::Result<()> {
    for &(name, words) in cases {
        draw_with(page, name, words, &mut [0u8; 4095])?;
    }
    Ok(())
}

// A load to a tile.
pub fn loaded(page: &mut Page<impl Write>, cases: &[(&str, u64, u64)]) -> io::Result<()> {
    for &(name, tile, load) in cases {
        after_fill(page, name, &[TEXTURE, tile, load])?;
    }
    Ok(())
}

// A copy of a tile from the texels that the second word of the rectangle says.
pub fn copied(page: &mut Page<impl Write>, cases: &[(&str, u64, u64)]) -> io::Result<()> {
    for &(name, tile, texels) in cases {
        after_fill(
            page,
            name,
            &[TEXTURE, tile, LOAD_ALL, PIPE_SYNC, COPY, COPY_RIGHT, texels],
        )?;
    }
    Ok(())
}

// The same with a further register set before it.
pub fn copied_under(page: &mut Page<impl Write>, cases: &[(&str, u64, u64)]) -> io::Result<()> {
    for &(name, register, texels) in cases {
        after_fill(
            page,
            name,
            &[
                TEXTURE, TILE, LOAD_ALL, PIPE_SYNC, COPY, register, COPY_RIGHT, texels,
            ],
        )?;
    }
    Ok(())
}
