// One step of the backward pass: the least total and its choice at each of the sixteen hazard states.
ghost use Rattle.std.specs.Prelude.{◌≡◌, ◌+◌, ◌*◌, ◌/◌, ◌%◌, ◌<◌, min, get_or};
ghost use Rattle.rdp_repair.specs.Work.{tabulate, bare_rank, synced_rank, Bounded, RowIs};

use rdp_hazards::StepTable;

// What each sync adds to a rank: 64 times the cycles that it waits, and 16 times its option.
const LOAD: u32 = 64 * rdp_hazards::LOAD_WAIT + 16;

const TILE: u32 = 64 * rdp_hazards::TILE_WAIT + 32;

const PIPE: u32 = 64 * rdp_hazards::PIPE_WAIT + 48;

// The totals before a command at the sixteen hazard states, and the choices there: 16 times the option, and the next hazards.
// Two arrays: document 01 names `[u32; 16]` for the totals, and the choices are the bytes of the work buffer.
#[derive(Clone, Copy)]
pub struct Row {
    pub totals: [u32; 16],
    pub choices: [u8; 16],
}

// Of two ranks the better one.
fn better(a: u32, b: u32) -> u32
    ensures { result ≡ min a b }
{
    a.min(b)
}

// The rank of a command with nothing before it, by its entry of the table: 64 times the total after it, and the next hazards; more than any other where
// a sync is missing.
fn bare_rank(after: &[u32; 16], entry: u8) -> u32
    requires { Bounded 102400 after.now }
    ensures { result ≡ 64 * get_or after.now (entry % 16) 0 + entry % 16 + entry / 16 % 2 * 0x1000000 }
{
    let next = (entry % 16) as usize;
    64 * after[next] + (entry % 16) as u32 + (entry / 16 % 2) as u32 * 0x100_0000
}

// The ranks of a command with nothing before it at the sixteen hazard states.
fn bare_ranks(table: &StepTable, number: u8, after: &[u32; 16]) -> [u32; 16]
    requires { (number < 64) × Bounded 102400 after.now }
    ensures { result ≡ tabulate 16 (bare_rank number (λ k. get_or after.now k 0)) }
{
    let mut ranks = [0u32; 16];
    for m in 0..16 {
        let at = number as usize * 16 + m;
        let entry = table.entries[at];
        ranks[m] = bare_rank(after, entry);
    }
    ranks
}

// The least rank of Load, Tile and Pipe before a command: to the rank after the hazards that the option clears come 64 times its cycles and 16 times
// the option.
fn synced_rank(ranks: &[u32; 16], m: usize) -> u32
    requires { (m < 4) × Bounded 0x2000000 ranks.now }
    ensures { result ≡ synced_rank (λ k. get_or ranks.now k 0) m }
{
    let pipe = ranks[0] + PIPE;
    let tile = better(ranks[m % 2] + TILE, pipe);
    better(ranks[m] + LOAD, tile)
}

// The least ranks with a sync, which leaves no hazards but P and T.
fn synced_ranks(ranks: &[u32; 16]) -> [u32; 4]
    requires { Bounded 0x2000000 ranks.now }
    ensures { result ≡ tabulate 4 (synced_rank (λ k. get_or ranks.now k 0)) }
{
    let none = synced_rank(ranks, 0);
    let pipe = synced_rank(ranks, 1);
    let tile = synced_rank(ranks, 2);
    let both = synced_rank(ranks, 3);
    [none, pipe, tile, both]
}

// The totals and choices before a command, from the totals after it.
pub fn row_before(table: &StepTable, number: u8, after: [u32; 16]) -> Row
    requires { (number < 64) × Bounded 102400 after }
    ensures { RowIs number after result.totals result.choices }
{
    let ranks = bare_ranks(table, number, &after);
    let synced = synced_ranks(&ranks);
    let mut totals = [0u32; 16];
    let mut choices = [0u8; 16];
    for m in 0..16 {
        let rank = better(ranks[m], synced[m % 4]);
        totals[m] = rank / 64;
        choices[m] = (rank % 64) as u8;
    }
    Row { totals, choices }
}
