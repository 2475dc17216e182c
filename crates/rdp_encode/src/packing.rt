// The words that hold the numbers of fields, by the bit lines of the layout.
ghost use Rattle.std.specs.Prelude.{cond, map, eqb, length, ◌&&◌, ◌≡◌, ◌<◌, ◌^◌};
ghost use Rattle.std.specs.Int.Signed.{mag};
ghost use Rattle.std.specs.Int.{w64};
ghost use Rattle.std.specs.List.{All};
ghost use Rattle.std.proofs.Common.{to_z};
ghost use Rattle.rdp_command.specs.Layout.{layout, width};
ghost use Rattle.rdp_encode.specs.Placed.{fits_line, at_line, at_lines};
ghost use Rattle.rdp_encode.specs.Numbers.{value_from, each_fits};
ghost use Rattle.rdp_encode.specs.Table.{line_of, Readable};

use crate::table::{BitLine, lines_of};

// How far a number of 64 bits in two's complement is from 0, or from -1 where it is negative.
fn magnitude(n: u64) -> u64
    ensures { result ≡ mag (to_z w64 n) }
{
    if n < 0x8000_0000_0000_0000 {
        n
    } else {
        0xFFFF_FFFF_FFFF_FFFF - n
    }
}

impl BitLine {
    fn width(self) -> u32
        requires { Readable (line_of self) }
        ensures { result ≡ width (line_of self) }
    {
        self.high - self.low + 1
    }

    // Whether a number fits its bits.
    fn fits(self, n: u64) -> bool
        requires { Readable (line_of self) }
        ensures { result ≡ fits_line (line_of self) (value_from self.is_signed n) }
    {
        if self.is_signed {
            magnitude(n) < 1u64 << (self.width() - 1)
        } else {
            n < 1u64 << self.width()
        }
    }

    // A number at its place in a word; 0 in every other word.
    fn placed(self, word: usize, n: u64) -> u64
        requires { Readable (line_of self) }
        ensures { result ≡ cond (eqb self.word word) (at_line (line_of self) n) 0 }
    {
        if self.word == word {
            (n % (1u64 << self.width())) << self.low
        } else {
            0
        }
    }
}

// The bit lines of a command number.
#[derive(Clone, Copy)]
pub struct Layout {
    pub lines: &'static [BitLine],
    ghost readable: { All (λ l. Readable (line_of l)) lines.now },
}

impl Layout {
    pub fn of(number: u8) -> Self
        requires { number < 64 }
        ensures { map line_of result.lines.now ≡ layout number }
    {
        Layout {
            lines: lines_of(number),
        }
    }

    // Whether there are as many numbers as bit lines, and each fits its own.
    pub fn fits(self, numbers: &[u64]) -> bool
        ensures { result ≡ (eqb (length numbers.now) (length (map line_of self.lines.now))
            && each_fits (map line_of self.lines.now) numbers.now) }
    {
        numbers.len() == self.lines.len()
            && self
                .lines
                .iter()
                .zip(numbers)
                .all(|(line, number)| line.fits(*number))
    }

    // A word of a command: the numbers at their bit lines, all other bits zero.
    pub fn packed(self, word: usize, numbers: &[u64]) -> u64
        requires { at_lines word (map line_of self.lines.now) numbers.now < 2 ^ 64 }
        ensures { result ≡ at_lines word (map line_of self.lines.now) numbers.now }
    {
        self.lines
            .iter()
            .zip(numbers)
            .map(|(line, number)| line.placed(word, *number))
            .sum()
    }
}
