// Prints the registers after lists 0 to 244, then after 49 words of list 0 with zeros up to 32,776 bytes, a line for each:
//
//     number place hazards colours combiner modes images tile0 .. tile7
//
// The check's answer in decimal, with the hazards summed (P 1, T 2, D 4, G 8), and a digest for each group of registers, in 16 hexadecimal digits.
// lists.rt says how the lists are made, digest.rt how the digests are. The file stdout is what the second program, reference/src/bin/registers.rs,
// prints of the same lists by its own check and registers; `make registers` holds it to that.
#![tactic(auto)]

mod digest;
mod lists;
mod show;

use std::io;
use std::io::{BufWriter, Write};

// Lays list n into the zeros that are lent.
fn show_list(out: &mut impl Write, n: u64, list: &mut [u8]) -> io::Result<()> {
    lists::lay(n, list);
    show::show(out, list)
}

fn show_lists(out: &mut impl Write) -> io::Result<()> {
    for n in 0..245u64 {
        let mut bytes = [0u8; 392];
        show_list(out, n, &mut bytes[..lists::length_of(n)])?;
    }
    Ok(())
}

fn show_long(out: &mut impl Write) -> io::Result<()> {
    let mut bytes = [0u8; 32776];
    show_list(out, 0, &mut bytes)
}

fn main(rt: HostRuntime) -> io::Result<()> {
    let mut out = BufWriter::new(rt.alloc(), io::writer(&rt))?;
    show_lists(&mut out)?;
    show_long(&mut out)?;
    out.flush()
}
