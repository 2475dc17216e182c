// Draws lists and prints for each its name, the answer's number and place, and the memory that it was drawn into, in hexadecimal:
//
//     name: number place
//     bytes of a row
//
// Memory holds the byte 55 before, which no colour here has, so that what is left as it was can be seen. Of a long memory there are a checksum, the
// first bytes and the last ones. crates/rdp_copies draws copies and loads. tools/drawings.py reads the lists in these files and works out the file stdout.
#![tactic(auto)]

mod fields;
mod lent;
mod long;
mod refusals;
mod registers;
mod scissors;
mod shapes;
mod show;

use show::Page;
use std::io;
use std::io::{BufWriter, Write};

fn show_all(page: &mut Page<impl Write>) -> io::Result<()> {
    writeln!(page.out, "name: number place, and memory after drawing")?;
    shapes::show_shapes(page)?;
    scissors::show_scissors(page)?;
    fields::show_fields(page)?;
    registers::show_registers(page)?;
    lent::show_lent(page)?;
    refusals::show_refusals(page)?;
    long::show_long(page)
}

fn main(rt: HostRuntime) -> io::Result<()> {
    let mut page = Page {
        out: BufWriter::new(rt.alloc(), io::writer(&rt))?,
    };
    show_all(&mut page)?;
    page.out.flush()
}
