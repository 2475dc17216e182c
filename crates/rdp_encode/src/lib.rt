// Encoding of the display processor's commands, and commands as their number and the numbers of their fields.
#![tactic(auto)]

ghost use Rattle.std.specs.Prelude.{◌≡◌};
ghost use Rattle.rdp_words.specs.Grounds.{answered};
ghost use Rattle.rdp_command.specs.Decode.{decoded};
ghost use Rattle.rdp_encode.specs.Encode.{encode_answer, encode_out};
ghost use Rattle.rdp_encode.specs.Numbers.{fields_answer, fields_out, from_numbers};

use rdp_command::Command;
use rdp_words::{Answer, Refusal};

mod encoding;
mod numbers;
mod packing;
mod table;
mod values;
mod words;

// Writes a command at the front of out, with the bytes given for what follows a triangle's base. Answers the words written; 15 at 0 where the command
// can't be encoded so; 14 at the words needed where out is too short.
pub fn encode(command: Command, suffix: &[u8], out: &mut [u8]) -> Answer
    ensures answer { answered result ≡ encode_answer command suffix.now out.old }
    ensures output { out.new ≡ encode_out command suffix.now out.old }
{
    encoding::write_numbers(&values::spread(command), suffix, out)
}

// Writes the fields of a command as numbers to the front of out, in the order of the layout. Answers their count, or 14 at the count where out is too
// short.
pub fn fields(command: Command, out: &mut [u64]) -> Answer
    ensures answer { answered result ≡ fields_answer command out.old }
    ensures output { out.new ≡ fields_out command out.old }
{
    values::write_values(values::spread(command).numbers.as_slice(), out)
}

// The command of a number and its fields as numbers, or 15 at 0.
pub fn from_fields(number: u32, numbers: &[u64]) -> Result<Command, Refusal>
    ensures { decoded result ≡ from_numbers number numbers.now }
{
    let base = encoding::packed_command(number, numbers);
    rdp_command::command_or(base, encoding::NOT_ENCODABLE)
}
