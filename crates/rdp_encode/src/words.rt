// A word written to a buffer.
ghost use Rattle.std.specs.Prelude.{◌≡◌, ◌+◌, ◌≤◌, length};
ghost use Rattle.rdp_words.specs.Words.{bytes_of, pasted};

// Writes a word at an index, most significant byte first.
pub fn put_word(out: &mut [u8], at: usize, w: u64)
    requires { at + 8 ≤ length out.old }
    ensures { out.new ≡ pasted at (bytes_of w) out.old }
{
    let end = at + 8;
    out[at..end].copy_from_slice(&rdp_words::bytes_of(w));
}
