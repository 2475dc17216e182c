// The held bytes and the numbers of a record.
ghost use Rattle.std.specs.Prelude.{◌≡◌, ◌+◌, ◌≤◌, length};
ghost use Rattle.std.proofs.Math.Seq.{paste};
ghost use Rattle.rdp_words.specs.Kinds.{among};
ghost use Rattle.rdp_words.specs.Grounds.{number_of};
ghost use Rattle.rdp_stream.specs.Records.{remembered};
ghost use Rattle.rdp_stream.specs.Steps.{bytes_damaged, counts_damaged, unlike_any};
ghost use Rattle.rdp_stream.specs.Arrivals.{IsRemembered};

use rdp_words::Ground;

// No held bytes. A static, as an array of its own would be laid on the stack at each call.
static NONE: [u8; 176] = [0; 176];

// Whether the held bytes of a record are such that these calls cannot have left them.
fn bytes_damaged(held: &[u8; 176], count: usize) -> bool
    requires { count ≤ 175 }
    ensures { result ≡ bytes_damaged count held.now }
{
    if held[count..] != NONE[count..] {
        return true;
    }
    rdp_words::whole_words(&held[..count]) != 0
}

// Whether the numbers of a record are.
fn counts_damaged(count: u32, taken: u32, waited: u32) -> bool
    ensures { result ≡ counts_damaged count taken waited }
{
    rdp_check::MOST_BYTES < taken as usize
        || taken < count
        || (taken - count) % 8 != 0
        || 204_800 < waited
}

// Whether one of the reasons of 28 holds, but for that of the remembered number.
pub fn is_damaged(held: &[u8; 176], count: u32, taken: u32, waited: u32) -> bool
    ensures { result ≡ unlike_any held.now count taken waited }
{
    175 < count || bytes_damaged(held, count as usize) || counts_damaged(count, taken, waited)
}

// Whether these calls remember a refusal of a ground: the grounds of the bytes that come, and those of closing.
fn is_given(refused: Ground) -> bool
    ensures { result ≡ among (number_of refused) remembered }
{
    match refused {
        Ground::TooLong
        | Ground::NotWords
        | Ground::Cut
        | Ground::AfterSyncFull
        | Ground::Unset
        | Ground::FillOnFourBits
        | Ground::LoadMissing
        | Ground::TileMissing
        | Ground::PipeMissing
        | Ground::Unassigned => true,
        _ => false,
    }
}

// The ground of a remembered number, 0 where none is; 28 where these calls give no such number.
pub fn remembered(number: u32) -> Result<Option<Ground>, Ground>
    ensures { IsRemembered number result }
{
    if number == 0 {
        return Ok(None);
    }
    match Ground::try_from(number) {
        Ok(refused) if is_given(refused) => Ok(Some(refused)),
        _ => Err(Ground::Damaged),
    }
}

// Held bytes with the first of others at an index.
pub fn fill(held: [u8; 176], at: usize, bytes: &[u8], count: usize) -> [u8; 176]
    requires { (at + count ≤ 176) × (count ≤ length bytes.now) }
    ensures { result ≡ paste held at bytes.now count }
{
    let mut next = held;
    next[at..at + count].copy_from_slice(&bytes[..count]);
    next
}
