// A list's line.
use crate::digest::Digest;
use rdp_check::Registers;
use rdp_words::Answer;
use std::io;
use std::io::Write;

// The digest of a group, after a space.
fn group(out: &mut impl Write, values: impl Digest) -> io::Result<()> {
    write!(out, " {:016x}", values.digest(0))
}

fn registers(out: &mut impl Write, r: Registers) -> io::Result<()> {
    group(out, r.colors)?;
    group(out, r.combiner)?;
    group(out, r.modes)?;
    group(out, r.images)?;
    for tile in r.tiles {
        group(out, tile)?;
    }
    Ok(())
}

fn answer(out: &mut impl Write, outcome: Answer) -> io::Result<()> {
    match outcome {
        Ok(words) => write!(out, "0 {words}"),
        Err(refusal) => write!(out, "{} {}", u32::from(refusal.ground), refusal.place),
    }
}

pub fn show(out: &mut impl Write, list: &[u8]) -> io::Result<()> {
    let state = rdp_state::registers_after(list);
    answer(out, state.outcome)?;
    write!(out, " {}", state.hazards)?;
    registers(out, state.registers)?;
    writeln!(out)
}
