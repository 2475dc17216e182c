// The words of a command.
ghost use Rattle.std.specs.Prelude.{◌≡◌};
ghost use Rattle.rdp_command.specs.Decode.{own_word};

// Word k of a command of n words, which is not read where the command has no such word.
pub fn own_word(list: &[u8], n: usize, k: usize) -> u64
    ensures { result ≡ own_word list.now n k }
{
    if k < n {
        rdp_words::word_at(list, k)
    } else {
        0
    }
}
