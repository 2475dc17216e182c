// The commands of a list, one after the other.
ghost use Rattle.std.specs.Iterator.{YieldsFirstRef, item_count};
ghost use Rattle.rdp_check.specs.Commands.{commands_of};

// The commands that are left of a list, each the bytes of its words: all that are whole, up to the end or to the first whose words are not all there.
#[derive(Clone, Copy)]
pub struct Commands<'a>(pub &'a [u8]);

impl<'a> Iterator for Commands<'a> {
    type Item = &'a [u8];

    ghost next_gives = { YieldsFirstRef (λ s. commands_of s.0.now) };

    ghost remaining = { item_count (λ s. commands_of s.0.now) };

    fn next(&mut self) -> Option<&'a [u8]> {
        let n = 8 * rdp_words::whole_words(self.0);
        if n == 0 {
            return None;
        }
        let (first, rest) = self.0.split_at(n);
        self.0 = rest;
        Some(first)
    }
}
