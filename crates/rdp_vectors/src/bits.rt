// What single bits give. For each there is a comma and the values that are not 0, each after its index.
ghost use Rattle.std.specs.Prelude.{◌<◌};

use crate::show;
use crate::text::Indexed;
use rdp_command::*;
use std::io;
use std::io::Write;

// The fields of a command whose base has one bit set beside its number.
fn show_bit(out: &mut impl Write, number: u8, place: usize, bit: u64) -> io::Result<()>
    requires { place < 4 }
{
    let mut words = [u64::from(number) << 56, 0, 0, 0];
    words[place] |= bit;
    let mut numbers = [0u64; 37];
    let fields = show::fields_in(&show::list_of(&words), &mut numbers).unwrap_or(&[]);
    write!(out, "{}", Indexed(fields))
}

fn show_word(out: &mut impl Write, number: u8, place: usize) -> io::Result<()>
    requires { place < 4 }
{
    write!(out, "{number:02x} {place}")?;
    for bit in 0..64u32 {
        show_bit(out, number, place, 1 << bit)?;
    }
    writeln!(out)
}

// Each word of the base of a command.
pub fn show_base(out: &mut impl Write, number: u8) -> io::Result<()> {
    for place in 0..rdp_words::words_of(number).min(4) {
        show_word(out, number, place)?;
    }
    Ok(())
}

// What the check reads of a word.
pub fn show_heads(out: &mut impl Write) -> io::Result<()> {
    write!(out, "head")?;
    for bit in 0..64u32 {
        let head = rdp_command::head_at(&(1u64 << bit).to_be_bytes(), 0);
        write!(
            out,
            "{}",
            Indexed(&[
                u64::from(head.number),
                u64::from(head.cycle_type),
                u64::from(head.image_size),
            ])
        )?;
    }
    writeln!(out)
}

fn corner(c: Corner) -> [u64; 2] {
    [u64::from(c.x), u64::from(c.y)]
}

fn image(g: Image) -> [u64; 4] {
    [
        u64::from(g.format),
        u64::from(g.size),
        u64::from(g.width),
        u64::from(g.address),
    ]
}

// The parts of a fill whose five words are one word.
fn show_fill(out: &mut impl Write, w: u64) -> io::Result<()> {
    let set = FillWords {
        modes: w,
        scissor: w,
        image: w,
        color: w,
    };
    let fill = rdp_command::fill_fields(set, w);
    let rectangle = fill.rectangle;
    let scissor = fill.scissor;
    let parts: [&[u64]; 7] = [
        &[u64::from(fill.cycle_type), u64::from(fill.color)],
        &corner(rectangle.lower_right),
        &corner(rectangle.upper_left),
        &corner(scissor.upper_left),
        &[u64::from(scissor.field), u64::from(scissor.odd)],
        &corner(scissor.lower_right),
        &image(fill.image),
    ];
    write!(out, "fill")?;
    for part in parts {
        write!(out, "{}", Indexed(part))?;
    }
    writeln!(out)
}

// What the drawing reads of words.
pub fn show_fills(out: &mut impl Write) -> io::Result<()> {
    for bit in 0..64u32 {
        show_fill(out, 1 << bit)?;
    }
    Ok(())
}

// The words of the command numbers, also of those that no word has.
pub fn show_counts(out: &mut impl Write) -> io::Result<()> {
    write!(out, "words")?;
    for number in 0..255u8 {
        write!(out, " {}", rdp_words::words_of(number))?;
    }
    writeln!(out)
}
