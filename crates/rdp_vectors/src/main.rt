// Decodes and encodes the lists of lists.rt, and one for each command number, and prints a line for each:
//
//     number fields = words ffffffffffffffff same
//
// The number in hexadecimal, the fields in decimal in the order of the wiki's bit lines, signed ones with their sign, the words that encoding the
// command gives back, the word after them in the output, which is left as it was, and 'same' where the command that is made of the printed numbers is
// encoded to the same bytes. A list that is refused has the line 'refused', number and place. Then come the answers of refusals.rt, number and place,
// and the lines of bits.rt. tools/vectors.py works out the file stdout.
#![tactic(auto)]

mod bits;
mod lists;
mod refusals;
mod show;
mod text;

use std::io;
use std::io::{BufWriter, Write};

fn show_lists(out: &mut impl Write) -> io::Result<()> {
    for (words, length) in &lists::LISTS {
        show::show(out, show::front(&show::list_of(words), *length))?;
    }
    Ok(())
}

// A list for each command number, all other bits 0 and all other bits set, long enough for every command; then its single bits.
fn show_every_number(out: &mut impl Write) -> io::Result<()> {
    for number in 0..64u8 {
        show::show(out, &show::list_of(&[u64::from(number) << 56]))?;
        show::show_ones(out, number)?;
        bits::show_base(out, number)?;
    }
    Ok(())
}

fn show_all(out: &mut impl Write) -> io::Result<()> {
    show_lists(out)?;
    show_every_number(out)?;
    refusals::show_refusals(out)?;
    bits::show_heads(out)?;
    bits::show_fills(out)?;
    bits::show_counts(out)
}

fn main(rt: HostRuntime) -> io::Result<()> {
    let mut out = BufWriter::new(rt.alloc(), io::writer(&rt))?;
    show_all(&mut out)?;
    out.flush()
}
