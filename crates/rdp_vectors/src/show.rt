// A list, decoded and encoded.
use crate::text::{Fields, Refused, Words};
use rdp_words::{Answer, Refusal};
use std::io;
use std::io::Write;

// Words as bytes, most significant byte first, and zeros after them.
pub fn list_of(words: &[u64]) -> [u8; 192] {
    let mut list = [0u8; 192];
    for (bytes, word) in list.chunks_exact_mut(8).zip(words) {
        bytes.copy_from_slice(&word.to_be_bytes());
    }
    list
}

// The first n of items; all where there are fewer.
pub fn front<T>(items: &[T], n: usize) -> &[T] {
    items.get(..n).unwrap_or(items)
}

// Shows the list of a command number with all other bits set.
pub fn show_ones(out: &mut impl Write, number: u8) -> io::Result<()> {
    let mut list = [255u8; 192];
    list[0] = 0xC0 | number;
    show(out, &list)
}

// The fields of the first command of a list.
pub fn fields_in<'a>(list: &[u8], numbers: &'a mut [u64; 37]) -> Result<&'a [u64], Refusal> {
    let count = rdp_encode::fields(rdp_command::decode(list)?, numbers)?;
    Ok(front(numbers, count as usize))
}

// Encodes the first command of a list.
fn encode_again(list: &[u8], encoded: &mut [u8]) -> Answer {
    rdp_encode::encode(rdp_command::decode(list)?, rdp_words::suffix(list), encoded)
}

// Encodes the command of a number and its fields.
fn encode_made(number: u8, fields: &[u64], suffix: &[u8], encoded: &mut [u8]) -> Answer {
    let command = rdp_encode::from_fields(u32::from(number), fields)?;
    rdp_encode::encode(command, suffix, encoded)
}

// A line of a list.
pub fn show(out: &mut impl Write, list: &[u8]) -> io::Result<()> {
    let mut numbers = [0u64; 37];
    match fields_in(list, &mut numbers) {
        Ok(fields) => show_fields(out, list, fields),
        Err(refusal) => {
            // A list that is refused has no suffix, so that its words print nothing.
            writeln!(
                out,
                "refused{} {}",
                Words(rdp_words::suffix(list)),
                Refused(refusal)
            )
        }
    }
}

// The number and the fields, the words with the one after them, and whether the fields give the words back. The output starts with all bits set: it
// shows that unused bits are cleared and that what follows the command is left.
fn show_fields(out: &mut impl Write, list: &[u8], fields: &[u64]) -> io::Result<()> {
    let number = rdp_command::head_at(list, 0).number;
    write!(out, "{number:02x}{}", Fields(fields))?;
    let mut encoded = [255u8; 184];
    match encode_again(list, &mut encoded) {
        Ok(count) => {
            let words = Words(front(&encoded, 8 * (count as usize) + 8));
            writeln!(
                out,
                " ={words} {}",
                same_or_other(number, fields, rdp_words::suffix(list), &encoded)
            )
        }
        Err(refusal) => writeln!(out, " refused {}", Refused(refusal)),
    }
}

// Whether the command of a number and its fields is encoded to the same bytes.
fn same_or_other(number: u8, fields: &[u64], suffix: &[u8], encoded: &[u8]) -> &'static str {
    let mut again = [255u8; 184];
    let answer = encode_made(number, fields, suffix, &mut again);
    if answer.is_ok() && again.as_slice() == encoded {
        "same"
    } else {
        "other"
    }
}
