// The step of the hazards by a table. The table is lent, since a constant is copied at each use.
ghost use Rattle.std.specs.Prelude.{◌≡◌};
ghost use Rattle.rdp_hazards.specs.Hazards.{entry_at, next_by};

// The entry of a table. Of the hazards the low four bits count, of the command number the low six.
pub fn entry(table: &[u8; 1024], hazards: u8, number: u8) -> u8
    ensures { result ≡ entry_at table.now hazards number }
{
    let at = (number % 64) as usize * 16 + (hazards % 16) as usize;
    table[at]
}

// The hazards after a command, where the hazards are below sixteen; of others higher bits may stay: of the hazards before it those that the entry at all
// hazards keeps, and those that the entry at none is. Where one command follows another these two are at hand before the hazards are, and the entry at the
// hazards is not.
pub fn next(table: &[u8; 1024], hazards: u8, number: u8) -> u8
    ensures { result ≡ next_by table.now hazards number }
{
    let row = (number % 64) as usize * 16;
    (hazards & table[row + 15]) | table[row]
}
