// For the programs that draw test lists: the words that many lists have, words as the bytes of a list, and bytes as text in hexadecimal.
#![tactic(auto)]

ghost use Rattle.std.specs.Prelude.{◌≡◌, length};
ghost use Rattle.rdp_text.specs.Text.{tabulated, byte_in, digit_of, mark_of, character_of};

pub mod words;

// Byte i of words, most significant byte first; 0 beyond them.
fn byte_of(words: &[u64], i: usize) -> u8
    ensures { result ≡ byte_in words.now i }
{
    let Some(word) = words.get(i / 8) else {
        return 0;
    };
    let shift = 8 * (7 - i % 8);
    ((*word >> shift) % 256) as u8
}

// Words as bytes, as many as there is room for; zeros beyond them.
pub fn lay(words: &[u64], out: &mut [u8])
    ensures { out.new ≡ tabulated (byte_in words.now) (length out.old) }
{
    for (i, byte) in out.iter_mut().enumerate() {
        *byte = byte_of(words, i);
    }
}

// The last hexadecimal digit of n.
fn digit(n: u8) -> u8
    ensures { result ≡ digit_of n }
{
    match n % 16 {
        d @ 0..=9 => b'0' + d,
        d => b'a' - 10 + d,
    }
}

// What stands before byte i: the end of a line where it starts a row.
fn mark(i: usize, row: usize) -> u8
    ensures { result ≡ mark_of row i }
{
    if row == 0 {
        return b' ';
    }
    if i % row == 0 {
        return b'\n';
    }
    b' '
}

// Character k of the text of bytes in rows; 0 beyond it.
#[tactic(auto, unfolding(crate::specs::Text::character_of))]
fn character(bytes: &[u8], row: usize, k: usize) -> u8
    ensures { result ≡ character_of row bytes.now k }
{
    let i = k / 3;
    let Some(byte) = bytes.get(i) else {
        return 0;
    };
    match k % 3 {
        0 => mark(i, row),
        1 => digit(*byte / 16),
        _ => digit(*byte),
    }
}

// The text of bytes in rows of `row`, three characters for each byte, as far as there is room; zeros beyond it.
pub fn spell(bytes: &[u8], row: usize, text: &mut [u8])
    ensures { text.new ≡ tabulated (character_of row bytes.now) (length text.old) }
{
    for (k, letter) in text.iter_mut().enumerate() {
        *letter = character(bytes, row, k);
    }
}
