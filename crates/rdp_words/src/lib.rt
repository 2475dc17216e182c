// A list of commands as words: the word at a place, the number of a command, its words, and the bytes after a triangle's base; and a copy of bytes.
#![tactic(auto)]

ghost use Rattle.std.specs.Prelude.{◌≡◌, ◌<◌, ◌*◌, ◌+◌, ◌≤◌, ◌^◌, length, take, drop};
ghost use Rattle.rdp_words.specs.Words.{half_of, word_at, bytes_of, number_in, overwrite};
ghost use Rattle.rdp_words.specs.Kinds.{words_of, is_among};
ghost use Rattle.rdp_words.specs.Lengths.{command_words, whole_words, suffix_of, suffix_start};

pub mod grounds;

pub use grounds::{Answer, Ground, NoGround, Refusal};

// The four bytes from an index on as a number. By products: with `u64::from_be_bytes` of eight bytes a caller that asks for few of them reads all, and the
// check's rows take a fifth longer.
fn half_at(list: &[u8], at: usize) -> u64
    requires { at + 4 ≤ length list.now }
    ensures { (result ≡ half_of (drop at list.now)) × (result < 2 ^ 32) }
{
    (list[at] as u64) * 0x100_0000
        + (list[at + 1] as u64) * 0x1_0000
        + (list[at + 2] as u64) * 0x100
        + (list[at + 3] as u64)
}

// The word at a place of a list; 0 where the list has no whole word there.
pub fn word_at(list: &[u8], place: usize) -> u64
    ensures { result ≡ word_at list.now place }
{
    if place < list.len() / 8 {
        let at = 8 * place;
        half_at(list, at) * 0x1_0000_0000 + half_at(list, at + 4)
    } else {
        0
    }
}

// The bytes of a word, most significant first.
pub fn bytes_of(w: u64) -> [u8; 8]
    ensures { result ≡ bytes_of w }
{
    w.to_be_bytes()
}

// The number of the command that begins with a word.
pub fn number_in(w: u64) -> u8
    ensures { result ≡ number_in w }
{
    ((w >> 56) % 64) as u8
}

// The number of the command at a place of a list; 0 where the list has no whole word there.
pub fn number_at(list: &[u8], place: usize) -> u8
    ensures { result ≡ number_in (word_at list.now place) }
{
    number_in(word_at(list, place))
}

// Command numbers, a bit for each: the draws, the loads, the commands of more than one word, and the unassigned numbers (#107).
pub const DRAWS: u64 = 0x0040_0030_0000_FF00;

pub const LOADS: u64 = 0x0019_0000_0000_0000;

pub const LONG: u64 = 0x0000_0030_0000_FF00;

pub const UNASSIGNED: u64 = 0x0002_000F_FFFF_00FE;

// Whether a command number is among those whose bits are set; its low six bits count.
pub fn is_among(numbers: u64, number: u8) -> bool
    ensures { result ≡ is_among numbers number }
{
    (numbers >> (number % 64)) % 2 == 1
}

// The words of a command, by its number. Nearly all have one; by the first branch the place after such a command need not wait for its number. Byte k of
// the constant, from its low end, has the words of the triangle 0x08 + k.
pub fn words_of(number: u8) -> usize
    ensures { result ≡ words_of number }
{
    if !is_among(LONG, number) {
        return 1;
    }
    if number / 8 == 1 {
        return ((0x1614_0E0C_0E0C_0604u64 >> (number % 8 * 8)) % 256) as usize;
    }
    if number / 2 == 0x12 {
        return 2;
    }
    1
}

// The words of the command that begins with a word. Its bits 63:62 don't count.
pub fn command_words(first: u64) -> usize
    ensures { result ≡ command_words first }
{
    words_of(number_in(first))
}

// The words of the first command, or 0 where they are not all there.
pub fn whole_words(list: &[u8]) -> usize
    ensures { (result ≡ whole_words list.now) × (8 * result ≤ length list.now) }
{
    let n = words_of(number_in(word_at(list, 0)));
    if list.len() / 8 < n { 0 } else { n }
}

// The bytes after the base of the first command, where that is a whole triangle; else none. They are the caller's own bytes, and no copy.
pub fn suffix(list: &[u8]) -> &[u8]
    ensures bytes { result.now ≡ suffix_of list.now }
    ensures block { result.ref_ptr.0 ≡ list.entry.ref_ptr.0 }
    ensures offset { result.ref_ptr.1 ≡ list.entry.ref_ptr.1 + suffix_start list.now }
{
    let n = whole_words(list);
    if n <= 4 {
        return &list[0..0];
    }
    let end = 8 * n;
    &list[32..end]
}

// Copies src to the front of out, as far as both go. Where a caller lends just the part to be written, the compiler sees that nothing is cut.
// `copy_from_slice` compares the two addresses first: by it the view's rows take twice as long.
pub fn copy(out: &mut [u8], src: &[u8])
    ensures { out.new ≡ overwrite (take (length out.old) src.now) out.old }
{
    let mut i: usize = 0;
    while i < src.len() {
        if out.len() <= i {
            return;
        }
        out[i] = src[i];
        i += 1;
    }
}
