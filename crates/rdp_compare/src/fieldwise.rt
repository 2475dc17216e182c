// Which fields of two commands of one number differ.
ghost use Rattle.std.specs.Prelude.{cond, not, eqb, ◌≡◌, ◌%◌, ◌^◌, ◌<◌, ◌≤◌, length};
ghost use Rattle.rdp_words.specs.Words.{same_bytes};
ghost use Rattle.rdp_compare.specs.Differing.{field_numbers, unlike, unnamed_before, line_index, bits_from, differing_fields};
ghost use Rattle.rdp_compare.specs.Places.{OneCommand};
ghost use Rattle.rdp_compare.specs.Steps.{Alike};

// Whether two commands of one length have the same words.
pub fn same(first: &[u8], second: &[u8]) -> bool
    requires { (length first.now ≡ length second.now) × (length first.now % 8 ≡ 0) }
    ensures { result ≡ same_bytes first.now second.now }
{
    (0..first.len() / 8).all(|k| rdp_words::word_at(first, k) == rdp_words::word_at(second, k))
}

// The numbers of a command's fields, written to the front of what is lent.
fn numbers_of<'a>(command: &[u8], numbers: &'a mut [u64]) -> &'a [u64]
    requires { OneCommand command.now × (37 ≤ length numbers.old) }
    ensures { (result.now ≡ field_numbers command.now) × (length result.now ≤ 37) }
{
    let Ok(fields) = rdp_command::decode(command) else {
        return &[];
    };
    let count = rdp_encode::fields(fields, numbers).unwrap_or(0) as usize;
    &numbers[..count]
}

// The lines of Set Other Modes that name no field and stand before field k.
fn unnamed_before(k: usize) -> usize
    ensures { (result ≡ unnamed_before k) × (result ≤ 3) }
{
    (1 <= k) as usize + (16 <= k) as usize + (24 <= k) as usize
}

// The bit of field k.
fn bit_of(number: u8, k: usize) -> u64
    requires { k ≤ 37 }
    ensures { (result ≡ 2 ^ line_index number k) × (result ≤ 2 ^ 40) }
{
    if number == 0x2F {
        return 1u64 << (k + unnamed_before(k));
    }
    1u64 << k
}

// The bit of field k where two commands differ in it, else 0.
fn field_bit(number: u8, k: usize, x: u64, y: u64) -> u64
    requires { k ≤ 37 }
    ensures { result ≡ cond (not (eqb x y)) (2 ^ line_index number k) 0 }
{
    if x == y {
        return 0;
    }
    bit_of(number, k)
}

// A bit for each field that differs.
fn field_bits(number: u8, first: &[u64], second: &[u64]) -> u64
    requires { (length first.now ≡ length second.now) × (length first.now ≤ 37) }
    ensures { (result ≡ bits_from number 0 (unlike first.now second.now)) × (result < 2 ^ 40) }
{
    first
        .iter()
        .zip(second)
        .enumerate()
        .map(|(k, (x, y))| field_bit(number, k, *x, *y))
        .sum()
}

// A bit for each field in which two commands differ, a triangle's suffix the last. Not inlined, so that comparing equal commands saves no registers for it.
#[inline(never)]
pub fn differing(number: u8, first: &[u8], second: &[u8]) -> u64
    requires { Alike first.now second.now number }
    ensures { result ≡ differing_fields first.now second.now }
{
    let mut one = [0u64; 37];
    let mut two = [0u64; 37];
    let firsts = numbers_of(first, &mut one);
    let seconds = numbers_of(second, &mut two);
    let bits = field_bits(number, firsts, seconds);
    if rdp_words::suffix(first) == rdp_words::suffix(second) {
        return bits;
    }
    bits + bit_of(number, firsts.len())
}
