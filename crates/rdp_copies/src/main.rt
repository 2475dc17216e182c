// Draws lists of copies and loads as crates/rdp_drawings draws fills, and prints the same of each:
//
//     name: number place
//     bytes of a row
//
// Each list first fills pixels (1, 1) to (2, 2) of memory that holds the byte 55; tiles are loaded out of what was drawn. tools/drawings.py reads the lists in
// these files and works out the file stdout.
#![tactic(auto)]

mod blocks;
mod copies;
mod refusals;
mod show;

use show::Page;
use std::io;
use std::io::{BufWriter, Write};

fn show_all(page: &mut Page<impl Write>) -> io::Result<()> {
    writeln!(page.out, "name: number place, and memory after drawing")?;
    copies::show_copies(page)?;
    refusals::show_refusals(page)?;
    blocks::show_blocks(page)
}

fn main(rt: HostRuntime) -> io::Result<()> {
    let mut page = Page {
        out: BufWriter::new(rt.alloc(), io::writer(&rt))?,
    };
    show_all(&mut page)?;
    page.out.flush()
}
