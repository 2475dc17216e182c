// The commands of two lists, paired by index from the first command.
ghost use Rattle.std.specs.Prelude.{◌≡◌, ◌+◌, ◌≤◌, length};
ghost use Rattle.rdp_check.specs.Commands.{commands_of, words_in};
ghost use Rattle.rdp_compare.specs.Places.{OneCommand};

use rdp_check::Commands;

// Two commands and their places.
#[derive(Clone, Copy)]
pub struct Pair<'a> {
    pub a: usize,
    pub first: &'a [u8],
    pub b: usize,
    pub second: &'a [u8],
    ghost one: { OneCommand first.now },
    ghost two: { OneCommand second.now },
    ghost few: { (a ≤ 4096) × (b ≤ 4096) },
}

// The commands that are left of each list, and the places of the first of them.
#[derive(Clone, Copy)]
pub struct Pairs<'a> {
    pub first: Commands<'a>,
    pub a: usize,
    pub second: Commands<'a>,
    pub b: usize,
    ghost one: { a + words_in (commands_of first.0.now) ≤ 4096 },
    ghost two: { b + words_in (commands_of second.0.now) ≤ 4096 },
}

impl<'a> Pairs<'a> {
    pub fn new(first: &'a [u8], second: &'a [u8]) -> Pairs<'a>
        requires { (length first.now ≤ 32768) × (length second.now ≤ 32768) }
        ensures { ((result.first.0.now ≡ first.now) × (result.second.0.now ≡ second.now)) × ((result.a ≡ 0) × (result.b ≡ 0)) }
    {
        Pairs {
            first: Commands(first),
            a: 0,
            second: Commands(second),
            b: 0,
        }
    }
}

impl<'a> Iterator for Pairs<'a> {
    ghost use Rattle.std.specs.Prelude.{length};
    ghost use Rattle.std.specs.Iterator.{at_most};
    ghost use Rattle.rdp_check.specs.Commands.{commands_of};
    ghost use Rattle.rdp_compare.specs.Steps.{Turn};

    type Item = Pair<'a>;

    ghost next_gives = { Turn };

    ghost remaining = { λ s. at_most (length (commands_of s.first.0.now)) };

    #[inline]
    fn next(&mut self) -> Option<Pair<'a>> {
        let Pairs {
            mut first,
            a,
            mut second,
            b,
        } = *self;
        let one = first.next()?;
        let two = second.next()?;
        *self = Pairs {
            first,
            a: a + one.len() / 8,
            second,
            b: b + two.len() / 8,
        };
        Some(Pair {
            a,
            first: one,
            b,
            second: two,
        })
    }
}
