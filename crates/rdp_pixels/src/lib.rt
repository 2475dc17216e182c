// The pixels of a rectangle that a scissor keeps.
#![tactic(auto)]

ghost use Rattle.std.specs.Prelude.{◌≡◌, ◌≤◌};
ghost use Rattle.rdp_pixels.specs.Kept.{line_kept, first_kept, end_kept, kept_from};
// The first kept column, or row. Pixel p is kept where 4p is at least the scissor's edge, so the edge is rounded up.
pub fn first_kept(near: u16, clip: u16) -> u64
    ensures { (result ≡ first_kept near clip) × (result ≤ 16384) }
{
    let first = near as u64 / 4;
    let edge = (clip as u64 + 3) / 4;
    first.max(edge)
}

// The column, or row, past the last kept one: the rectangle's last is included, and 4p is below the scissor's edge.
pub fn end_kept(far: u16, clip: u16) -> u64
    ensures { (result ≡ end_kept far clip) × (result ≤ 16384) }
{
    let past = far as u64 / 4 + 1;
    let end = (clip as u64 + 3) / 4;
    past.min(end)
}

// Whether a scissor's field setting keeps row y. The setting is two flags, as in the command, so that no caller is asked more.
#[tactic(auto, unfolding(crate::specs::Kept::line_kept))]
pub fn row_kept(field: bool, odd: bool, y: u64) -> bool
    ensures { result ≡ line_kept «field» odd y }
{
    !field | ((y % 2 == 1) == odd)
}

// The first row that a rectangle has and the scissor keeps, if there is one. The flags come one by one: a copy of the whole scissor would wait for its parts.
#[tactic(auto, unfolding(crate::specs::Kept::kept_from))]
pub fn first_kept_row(near: u16, clip: u16, field: bool, odd: bool) -> u64
    ensures { (result ≡ kept_from «field» odd (first_kept near clip)) × (result ≤ 16385) }
{
    let y = first_kept(near, clip);
    if row_kept(field, odd, y) { y } else { y + 1 }
}
