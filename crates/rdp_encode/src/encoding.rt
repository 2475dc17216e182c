// A command's words out of its number and the numbers of its fields, and back.
ghost use Rattle.std.specs.Prelude.{true, false, ◌&&◌, is_ok, ◌≡◌, ◌*◌, ◌<◌, ◌≤◌, length, MatchOption};
ghost use Rattle.rdp_words.specs.Words.{overwrite};
ghost use Rattle.rdp_words.specs.Kinds.{words_of};
ghost use Rattle.rdp_words.specs.Grounds.{answered};
ghost use Rattle.rdp_words.specs.Lengths.{suffix_words};
ghost use Rattle.rdp_command.specs.Decode.{decoded_from};
ghost use Rattle.rdp_command.specs.declared.Command.{Command};
ghost use Rattle.rdp_encode.specs.Encode.{fixed_bits, packed_word, packed_bytes, bytes_with, verdict_of, encode_answer, encode_out};
ghost use Rattle.rdp_encode.specs.Numbers.{numbers_fit, flags_agree, from_numbers};
ghost use Rattle.rdp_encode.specs.Steps.{Spread, SuffixDue, answer_by, out_by};

use crate::numbers::Numbered;
use crate::packing::Layout;
use crate::words;
use rdp_command::Base;
use rdp_words::{Answer, Ground, Refusal};

// What can't be encoded.
pub const NOT_ENCODABLE: Refusal = Refusal {
    ground: Ground::NotEncodable,
    place: 0,
};

// The bits of a number that no bit line holds: all of it, but for a triangle's three flags.
fn fixed_bits(number: u8) -> u8
    ensures { result ≡ fixed_bits number }
{
    if number / 8 == 1 { 8 } else { number }
}

// A command's number, and the numbers of its fields, which fit its bit lines.
#[derive(Clone, Copy)]
pub struct Packable<'a> {
    pub number: u8,
    pub numbers: &'a [u64],
    ghost small: { number < 64 },
    ghost fit: { numbers_fit number numbers.now ≡ true },
}

impl<'a> Packable<'a> {
    // None where the numbers are not as many as the bit lines, or one does not fit its own.
    pub fn new(number: u8, numbers: &'a [u64]) -> Option<Packable<'a>>
        requires { number < 64 }
        ensures { MatchOption result (numbers_fit number numbers.now ≡ false) (λ p. (p.number ≡ number) × (p.numbers.now ≡ numbers.now)) }
    {
        if Layout::of(number).fits(numbers) {
            return Some(Packable { number, numbers });
        }
        None
    }

    // Word k of the command.
    fn word(self, k: usize) -> u64
        requires { k < 4 }
        ensures { result ≡ packed_word self.entry.number self.entry.numbers.now k }
    {
        let rest = Layout::of(self.number).packed(k, self.numbers);
        if k == 0 {
            return (fixed_bits(self.number) as u64) * 0x100_0000_0000_0000 + rest;
        }
        rest
    }

    // Whether the flags of a triangle are those of its number.
    fn flags_agree(self) -> bool
        ensures { result ≡ flags_agree self.entry.number self.entry.numbers.now }
    {
        if self.number / 8 == 1 {
            let n = self.number as u64;
            let numbers = self.numbers;
            return (numbers[0] == n / 4 % 2) & (numbers[1] == n / 2 % 2) & (numbers[2] == n % 2);
        }
        true
    }

    // Writes the first words at the front.
    fn write_base(self, base: usize, out: &mut [u8])
        requires { (base ≤ 4) × (8 * base ≤ length out.old) }
        ensures { out.new ≡ overwrite (packed_bytes self.entry.number self.entry.numbers.now base) out.old }
    {
        for k in 0..base {
            let w = self.word(k);
            words::put_word(out, 8 * k, w);
        }
    }

    // Writes the command of n words at the front, with the suffix after its base.
    fn write_whole(self, n: usize, suffix: &[u8], out: &mut [u8])
        requires { (n ≡ words_of self.number) × ((8 * n ≤ length out.old) × SuffixDue suffix.now n) }
        ensures { out.new ≡ overwrite (bytes_with self.entry.number self.entry.numbers.now suffix.now) out.old }
    {
        let base = n.min(4);
        self.write_base(base, out);
        let start = 8 * base;
        let end = start + suffix.len();
        rdp_words::copy(&mut out[start..end], suffix);
    }
}

// The bytes due after a command's base.
fn suffix_len(n: usize) -> usize
    requires { n ≤ 22 }
    ensures { result ≡ 8 * suffix_words n }
{
    8 * n.saturating_sub(4)
}

// The n words of a command, or 15 at 0 where it can't be encoded, else 14 at its words where there is no room for them.
fn verdict(encodable: bool, room: bool, n: usize) -> Answer
    requires { n ≤ 22 }
    ensures answer { answered result ≡ verdict_of encodable room n }
    ensures whole { is_ok result ≡ (encodable && room) }
{
    let place = n as u32;
    if !encodable {
        return Err(NOT_ENCODABLE);
    }
    if !room {
        return Err(Refusal {
            ground: Ground::OutputTooShort,
            place,
        });
    }
    Ok(place)
}

// Writes a command at the front of out, where it can be encoded and there is room.
fn write_command(number: u8, numbers: &[u64], suffix: &[u8], out: &mut [u8]) -> Answer
    requires { number < 64 }
    ensures answer { answered result ≡ answer_by number numbers.now suffix.now out.old }
    ensures output { out.new ≡ out_by number numbers.now suffix.now out.old }
{
    let packable = Packable::new(number, numbers).ok_or(NOT_ENCODABLE)?;
    let n = rdp_words::words_of(number);
    let count = verdict(suffix.len() == suffix_len(n), n <= out.len() / 8, n)?;
    packable.write_whole(n, suffix, out);
    Ok(count)
}

// Writes a command at the front of out, by its numbers.
pub fn write_numbers(numbered: &Numbered, suffix: &[u8], out: &mut [u8]) -> Answer
    ensures answer { (c : Command) → Spread c numbered.now → answered result ≡ encode_answer c suffix.now out.old }
    ensures output { (c : Command) → Spread c numbered.now → out.new ≡ encode_out c suffix.now out.old }
{
    let number = numbered.number.ok_or(NOT_ENCODABLE)?;
    write_command(number, numbered.numbers.as_slice(), suffix, out)
}

// The base of a number and the numbers of its fields, where these make a command.
pub fn packed_command(number: u32, numbers: &[u64]) -> Option<Base>
    ensures { decoded_from 15 result ≡ from_numbers number numbers.now }
{
    if 64 <= number {
        return None;
    }
    let number = number as u8;
    let packable = Packable::new(number, numbers)?;
    if !packable.flags_agree() {
        return None;
    }
    Some(Base {
        number,
        w0: packable.word(0),
        w1: packable.word(1),
        w2: packable.word(2),
        w3: packable.word(3),
    })
}
