// What is known of a list that arrives.
ghost use Rattle.rdp_stream.specs.Steps.{Open};

use rdp_state::Standing;
use rdp_words::Ground;

// Where the list stands after the commands accepted, the held bytes of a command that is not complete, zero past them, their number, the bytes taken, the
// ground of a remembered refusal, and its place, which stays where none is remembered. An array and a count, as in C's record: a slice cannot be kept.
#[derive(Clone, Copy)]
pub struct Arrival {
    pub standing: Standing,
    pub held: [u8; 176],
    pub held_count: u32,
    pub taken: u32,
    pub ground: Option<Ground>,
    pub place: u32,
    ghost sound: { Open held held_count taken },
}
