// The passes of the repair over a list of whole commands: numbers, choices from the back, words to insert, output.
ghost use Rattle.std.specs.Prelude.{◌++◌, ◌≡◌, ◌+◌, ◌*◌, ◌/◌, ◌<◌, ◌≤◌, min, length, replicate, MatchResult};
ghost use Rattle.rdp_words.specs.Grounds.{answered};
ghost use Rattle.rdp_command.specs.Decode.{answer};
ghost use Rattle.rdp_words.specs.Words.{overwrite, WrittenIs};
ghost use Rattle.rdp_check.specs.Commands.{commands_of};
ghost use Rattle.rdp_hazards.specs.Hazards.{code_in};
ghost use Rattle.rdp_check.specs.Check.{repair_refusals, outcome_within};
ghost use Rattle.rdp_repair.specs.Repair.{told};
ghost use Rattle.rdp_repair.specs.Work.{drops, basis_of, noted_number, kept_words, kept_of, noted_in, options_in, inserts_of, Below, option_bytes, due_bytes, NotedIs, BackwardIs, PlannedIs, Repairs};

use crate::{Repaired, plan};
use rdp_check::Commands;
use rdp_hazards::{SYNC_LOAD, SYNC_PIPE, SYNC_TILE, StepTable, Sync, table};
use rdp_words::{Ground, Refusal};

// How many commands a list has.
#[tactic(auto, using(crate::proofs::PassLaws::few_commands))]
fn count_commands(list: &[u8]) -> usize
    ensures { result ≡ length (commands_of list.now) }
{
    Commands(list).count()
}

// Refuses by 13 where there is room for fewer commands than the list has. It has no more of them than words, so they are counted only where the words
// do not tell.
#[tactic(auto, using(crate::proofs::PassLaws::few_commands))]
fn test_room(list: &[u8], room: usize) -> Result<(), Refusal>
    requires { length list.now ≤ 16384 }
    ensures { let count = length (commands_of list.now) in
        MatchResult result (λ _. count ≤ room) (λ r. (room < count) × (answered (Err r) ≡ answer 13 count)) }
{
    let words = list.len() / 8;
    if words <= room {
        return Ok(());
    }
    let commands = count_commands(list);
    if room < commands {
        return Err(Refusal {
            ground: Ground::WorkTooShort,
            place: commands as u32,
        });
    }
    Ok(())
}

// The commands of a list, and the words of those that are kept.
#[derive(Clone, Copy)]
pub struct Noted {
    pub commands: usize,
    pub words: usize,
}

// The commands of a list, its least cycles, and the words that are kept with the plan's syncs.
#[derive(Clone, Copy)]
pub struct Planned {
    pub commands: usize,
    pub cycles: u32,
    pub words: usize,
}

// The backward pass: from the numbers to the choices at each command. The sixteen best totals are carried from command to command. It answers the
// least cycles.
fn backward(table: &StepTable, work: &mut [u8], commands: usize) -> u32
    requires { (commands ≤ 2048) × (16 * commands ≤ length work.old) × Below 64 (noted_in work.old commands) commands }
    ensures { BackwardIs commands result work.old work.new }
{
    let mut totals = [0u32; 16];
    for i in (0..commands).rev() {
        let at = 16 * i;
        let number = work[at];
        let row = plan::row_before(table, number, totals);
        let choices = row.choices;
        let end = at + 16;
        rdp_words::copy(&mut work[at..end], &choices);
        totals = row.totals;
    }
    totals[0]
}

// The sync of a choice, by its option.
fn sync_in(choice: u8) -> Option<Sync>
    ensures { choice < 64 → code_in result ≡ choice / 16 }
{
    match choice / 16 {
        0 => None,
        1 => Some(Sync::Load),
        2 => Some(Sync::Tile),
        _ => Some(Sync::Pipe),
    }
}

// How many words the plan in the work buffer inserts.
fn count_inserts(work: &[u8], commands: usize) -> usize
    requires { (16 * commands ≤ length work.now) × Below 64 work.now (16 * commands) }
    ensures { result ≡ inserts_of (options_in commands work.now 0) }
{
    let mut hazards: u8 = 0;
    let mut count: usize = 0;
    for i in 0..commands {
        let choice = work[16 * i + hazards as usize];
        let sync = sync_in(choice);
        count += sync.is_some() as usize;
        hazards = choice % 16;
    }
    count
}

// Writes a sync to an index, if there is one, and answers the index after it.
fn put_sync(sync: Option<Sync>, out: &mut [u8], to: usize) -> usize
    requires { to + length (option_bytes (code_in sync)) ≤ length out.old }
    ensures { WrittenIs (option_bytes (code_in sync)) to result out.old out.new }
{
    let Some(sync) = sync else {
        return to;
    };
    let mut word = [0u8; 8];
    word[0] = sync.number();
    let end = to + 8;
    rdp_words::copy(&mut out[to..end], &word);
    end
}

// Writes a command, with a sync before it if there is one, and answers the index after it.
fn write_command(sync: Option<Sync>, command: &[u8], out: &mut [u8], to: usize) -> usize
    requires { to + length (option_bytes (code_in sync)) + length command.now ≤ length out.old }
    ensures { WrittenIs (option_bytes (code_in sync) ++ command.now) to result out.old out.new }
{
    let next = put_sync(sync, out, to);
    let after = next + command.len();
    rdp_words::copy(&mut out[next..after], command);
    after
}

// Sets the first n bytes to 0.
fn clear(work: &mut [u8], n: usize)
    requires { n ≤ length work.old }
    ensures { work.new ≡ overwrite (replicate n 0) work.old }
{
    work[..n].fill(0);
}

// A list that is to be repaired: as it is given, or afresh, without its Load, Tile and Pipe syncs.
#[derive(Clone, Copy)]
pub struct Basis<'a> {
    pub list: &'a [u8],
    pub afresh: bool,
}

impl<'a> Basis<'a> {
    // Whether a command of the given list is left out, by its number.
    fn leaves_out(self, number: u8) -> bool
        ensures { result ≡ drops self.entry.afresh number }
    {
        self.afresh & (((number == SYNC_LOAD) | (number == SYNC_TILE)) | (number == SYNC_PIPE))
    }

    // The number to plan with: a no operation's for a command that is left out.
    #[tactic(auto, unfolding(crate::specs::Work::noted_number))]
    fn noted_number(self, number: u8) -> u8
        ensures { result ≡ noted_number self.entry.afresh number }
    {
        if self.leaves_out(number) {
            return 0;
        }
        number
    }

    // How many of a command's words are kept.
    #[tactic(auto, unfolding(crate::specs::Work::kept_words))]
    fn kept_words(self, number: u8) -> usize
        ensures { result ≡ kept_words self.entry.afresh number }
    {
        if self.leaves_out(number) {
            return 0;
        }
        rdp_words::words_of(number)
    }

    // What is kept of a command: its bytes, or none of them.
    #[tactic(auto, unfolding(crate::specs::Work::kept_of))]
    fn kept(self, command: &'a [u8]) -> &'a [u8]
        ensures { result.now ≡ kept_of self.entry.afresh command.now }
    {
        if self.leaves_out(rdp_words::number_at(command, 0)) {
            return &command[..0];
        }
        command
    }

    // Notes the number of each command at the start of its sixteen bytes of work.
    fn note_numbers(self, work: &mut [u8]) -> Noted
        requires { 16 * length (commands_of self.list.now) ≤ length work.old }
        ensures { NotedIs self.entry.afresh self.entry.list.now work.old result work.new }
    {
        let mut commands: usize = 0;
        let mut words: usize = 0;
        for command in Commands(self.list) {
            let number = rdp_words::number_at(command, 0);
            work[16 * commands] = self.noted_number(number);
            words += self.kept_words(number);
            commands += 1;
        }
        Noted { commands, words }
    }

    // Leaves the choices at each command in the work buffer.
    fn plan(self, work: &mut [u8]) -> Planned
        requires { (length self.list.now ≤ 16384) × (16 * length (commands_of self.list.now) ≤ length work.old) }
        ensures { PlannedIs self.entry.afresh self.entry.list.now work.old result work.new }
    {
        let noted = self.note_numbers(work);
        let commands = noted.commands;
        let table = table::step_table();
        let cycles = backward(&table, work, commands);
        let total = noted.words + count_inserts(work, commands);
        Planned {
            commands,
            cycles,
            words: total,
        }
    }

    // Writes the commands that are kept, with the plan in the work buffer.
    fn write(self, work: &[u8], out: &mut [u8])
        requires { let count = length (commands_of self.list.now) in
            (16 * count ≤ length work.now) × Below 64 work.now (16 * count) × (length (due_bytes self.afresh self.list.now work.now) ≤ length out.old) }
        ensures { out.new ≡ overwrite (due_bytes self.entry.afresh self.entry.list.now work.now) out.old }
    {
        let mut hazards: u8 = 0;
        let mut to: usize = 0;
        for (i, command) in Commands(self.list).enumerate() {
            let choice = work[16 * i + hazards as usize];
            let sync = sync_in(choice);
            to = write_command(sync, self.kept(command), out, to);
            hazards = choice % 16;
        }
    }

    // Repairs a list that none of refusals 1 to 6 and 19 holds for, where the work buffer has sixteen bytes for each command. It stays a function of its own:
    // the check's table is off the stack before this one's stands there.
    #[inline(never)]
    fn repair_whole(self, work: &mut [u8], out: &mut [u8]) -> Result<Repaired, Refusal>
        requires { ((outcome_within 2048 repair_refusals self.list.now).number ≡ 0) × (16 * length (commands_of self.list.now) ≤ length work.old) }
        ensures { Repairs (basis_of self.entry.afresh self.entry.list.now) self.entry.list.now work.old out.old (told result) work.new out.new }
    {
        let planned = self.plan(work);
        let needed = planned.words;
        let used = 16 * planned.commands;
        let words = needed as u32;
        if out.len() / 8 < needed {
            clear(work, used);
            return Err(Refusal {
                ground: Ground::OutputTooShort,
                place: words,
            });
        }
        self.write(work, out);
        clear(work, used);
        Ok(Repaired {
            words,
            cycles: planned.cycles,
        })
    }

    // Repairs a list. Refusals 1 to 6 and 19 of it as given, where 7 to 9 are passed over, then 13 by its commands and 14; else the words written and the
    // cycles of the plan.
    pub fn repair(self, work: &mut [u8], out: &mut [u8]) -> Result<Repaired, Refusal>
        ensures { Repairs (basis_of self.entry.afresh self.entry.list.now) self.entry.list.now work.old out.old (told result) work.new out.new }
    {
        rdp_check::check_for_repair(self.list)?;
        test_room(self.list, work.len() / 16)?;
        self.repair_whole(work, out)
    }
}
