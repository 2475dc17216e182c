// An entry of the table where the walk knows that hazards and number are small. `rdp_hazards::hazards::entry` takes every number, by remainders that the walk
// would pay for at each command.
ghost use Rattle.std.specs.Prelude.{◌≡◌, ◌<◌};
ghost use Rattle.rdp_hazards.specs.Hazards.{entry_of};

use rdp_hazards::StepTable;

pub fn entry(table: &StepTable, hazards: u8, number: u8) -> u8
    requires { (hazards < 16) × (number < 64) }
    ensures { result ≡ entry_of hazards number }
{
    let at = number as usize * 16 + hazards as usize;
    table.entries[at]
}
