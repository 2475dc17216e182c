// How the lists are made, here and in reference/src/bin/registers.rs.
//
// List n starts from the state n xor SEED, from which four steps of the generator are taken. Each step more gives a word, whose command number is
// changed by n mod 8:
//   0, 1, 2, 7  no draw, no Sync Full, no unassigned number: bit 61 set, then 20 to 23 become 28, 24 30, 25 33, 29 35, 31 00 and 36 32;
//   3, 4, 5     Set Other Modes, Set Color Image and Set Scissor first; then more syncs, loads and Set Tile: 00 to 07 become 35, 10 to 17 27,
//               18 and 19 26, 1A, 1B and 20 to 23 28, 1C to 1F 34, 31 00;
//   6           none is changed.
// All other bits are as they came. With w = n mod 49 list n has w words; for 7, w words and 1 + w mod 7 bytes, which are zero.
ghost use Rattle.std.specs.Prelude.{◌<◌};

const SEED: u64 = 0x9E37_79B9_7F4A_7C15;

// A step of the generator, which is a 64-bit xorshift.
pub fn next(x: u64) -> u64 {
    let a = x ^ (x << 13);
    let b = a ^ (a >> 7);
    b ^ (b << 17)
}

fn start(n: u64) -> u64 {
    next(next(next(next(n ^ SEED))))
}

// The command number in lists with no draw and no Sync Full.
fn quiet(number: u64) -> u64 {
    match number | 0x20 {
        0x20..=0x23 => 0x28,
        0x24 => 0x30,
        0x25 => 0x33,
        0x29 => 0x35,
        0x31 => 0x00,
        0x36 => 0x32,
        other => other,
    }
}

// The command number in lists that can draw.
fn drawing(place: usize, number: u64) -> u64 {
    match place {
        0 => return 0x2F,
        1 => return 0x3F,
        2 => return 0x2D,
        _ => {}
    }
    match number {
        0x00..=0x07 => 0x35,
        0x10..=0x17 => 0x27,
        0x18 | 0x19 => 0x26,
        0x1A | 0x1B | 0x20..=0x23 => 0x28,
        0x1C..=0x1F => 0x34,
        0x31 => 0x00,
        _ => number,
    }
}

// The command number at a place of list n, where the generator gave another.
fn number_of(n: u64, place: usize, number: u64) -> u64 {
    match n % 8 {
        3..=5 => drawing(place, number),
        6 => number,
        _ => quiet(number),
    }
}

// The word at a place of list n that comes of the generator's word.
fn word_of(n: u64, place: usize, x: u64) -> u64 {
    let number = number_of(n, place, (x >> 56) % 64);
    (x & 0xC0FF_FFFF_FFFF_FFFF) | (number << 56)
}

// Writes the words of list n, most significant byte first, as many as the output has, at most 49.
pub fn lay(n: u64, out: &mut [u8]) {
    let mut x = start(n);
    for (place, word) in out.chunks_exact_mut(8).take(49).enumerate() {
        x = next(x);
        word.copy_from_slice(&word_of(n, place, x).to_be_bytes());
    }
}

// How many bytes list n has.
pub fn length_of(n: u64) -> usize
    ensures { result < 392 }
{
    let words = (n % 49) as usize;
    if n % 8 == 7 {
        return 8 * words + 1 + words % 7;
    }
    8 * words
}
