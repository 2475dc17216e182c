// The hazards between commands: document 01's four marks, their step at a command, and the table of all steps.
#![tactic(auto)]

ghost use Rattle.std.specs.Prelude.{◌≡◌, ◌%◌, ◌<◌};
ghost use Rattle.rdp_hazards.specs.Hazards.{Agrees, transition_of, stepped, code_in};
ghost use Rattle.rdp_hazards.specs.Syncs.{sync_in, sync_number, sync_wait};

pub mod hazards;
pub mod table;

// The command numbers of the syncs, and the cycles that they wait.
pub const SYNC_LOAD: u8 = 0x26;

pub const SYNC_TILE: u8 = 0x28;

pub const SYNC_PIPE: u8 = 0x27;

pub const LOAD_WAIT: u32 = 25;

pub const TILE_WAIT: u32 = 33;

pub const PIPE_WAIT: u32 = 50;

// A sync that clears hazards and lets the list go on.
#[derive(Clone, Copy, Debug, PartialEq, Eq)]
pub enum Sync {
    Load,
    Tile,
    Pipe,
}

impl Sync {
    // Its command number.
    pub fn number(self) -> u8
        ensures { result ≡ sync_number (sync_in self) }
    {
        match self {
            Sync::Load => SYNC_LOAD,
            Sync::Tile => SYNC_TILE,
            Sync::Pipe => SYNC_PIPE,
        }
    }

    // The cycles that it waits.
    pub fn wait(self) -> u32
        ensures { result ≡ sync_wait (sync_in self) }
    {
        match self {
            Sync::Load => LOAD_WAIT,
            Sync::Tile => TILE_WAIT,
            Sync::Pipe => PIPE_WAIT,
        }
    }
}

// The hazards after a command, and the sync that it requires and misses.
#[derive(Clone, Copy, Debug, PartialEq, Eq)]
pub struct Transition {
    pub next: u8,
    pub required: Option<Sync>,
}

// The table of all steps, which agrees with the rule at every entry.
#[derive(Clone, Copy)]
pub struct StepTable {
    pub entries: [u8; 1024],
    ghost agrees: { Agrees entries },
}

// The sync of its number in the table: 1 Load, 2 Tile, 3 Pipe.
fn sync_of(code: u8) -> Option<Sync>
    ensures { code < 4 → code_in result ≡ code }
{
    match code {
        1 => Some(Sync::Load),
        2 => Some(Sync::Tile),
        3 => Some(Sync::Pipe),
        _ => None,
    }
}

// One step of the hazards (1 P, 2 T, 4 D, 8 G, summed) by the table. Of the hazards the low four bits count, of the command number the low six.
pub fn step(hazards: u8, number: u8) -> Transition
    ensures { stepped result ≡ transition_of hazards (number % 64) }
{
    let table = table::step_table();
    let e = hazards::entry(&table.entries, hazards, number);
    Transition {
        next: e % 16,
        required: sync_of(e / 32),
    }
}
