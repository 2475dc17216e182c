// What is printed.
use rdp_words::{Answer, Refusal};
use std::io::Write;
use std::{fmt, io};

// The fields of a command, each after a space. No field has 64 bits, so one of 2^63 or more is a negative number in two's complement.
#[derive(Clone, Copy)]
pub struct Fields<'a>(pub &'a [u64]);

impl fmt::Display for Fields<'_> {
    fn fmt<W: fmt::Write>(&self, f: &mut fmt::Formatter<W>) -> fmt::Result {
        for n in self.0 {
            write!(f, " {}", n.cast_signed())?;
        }
        Ok(())
    }
}

// A comma, and the numbers that are not 0, each after its index.
#[derive(Clone, Copy)]
pub struct Indexed<'a>(pub &'a [u64]);

impl fmt::Display for Indexed<'_> {
    fn fmt<W: fmt::Write>(&self, f: &mut fmt::Formatter<W>) -> fmt::Result {
        write!(f, ",")?;
        for (i, n) in self.0.iter().enumerate() {
            if *n != 0 {
                write!(f, " {i}: {}", n.cast_signed())?;
            }
        }
        Ok(())
    }
}

// The whole words of bytes, each after a space.
#[derive(Clone, Copy)]
pub struct Words<'a>(pub &'a [u8]);

impl fmt::Display for Words<'_> {
    fn fmt<W: fmt::Write>(&self, f: &mut fmt::Formatter<W>) -> fmt::Result {
        for place in 0..self.0.len() / 8 {
            write!(f, " {:016x}", rdp_words::word_at(self.0, place))?;
        }
        Ok(())
    }
}

// The number of the ground, and the place.
#[derive(Clone, Copy)]
pub struct Refused(pub Refusal);

impl fmt::Display for Refused {
    fn fmt<W: fmt::Write>(&self, f: &mut fmt::Formatter<W>) -> fmt::Result {
        write!(f, "{} {}", u32::from(self.0.ground), self.0.place)
    }
}

// An answer on a line of its own: 0 and the count, or the refusal.
pub fn answer(out: &mut impl Write, answer: Answer) -> io::Result<()> {
    match answer {
        Ok(count) => writeln!(out, "0 {count}"),
        Err(refusal) => writeln!(out, "{}", Refused(refusal)),
    }
}
