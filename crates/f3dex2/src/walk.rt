// The walk of a display list: a list runs commands, and a command may run a list.
ghost use Rattle.std.specs.Prelude.{◌≡◌, ◌≤◌};
ghost use Rattle.f3dex2.specs.Steps.{read_refusal, put_words, Starts, ReadIs, StepIs, ListIs, WalkIs};
ghost use Rattle.f3dex2.specs.Translate.{walked};

use crate::command::*;
use crate::output::put;
use crate::*;
use rdp_words::Ground;

// Refuses an offset where no command can be read, and one where no more may be read.
fn read_refusal(memory: &[u8], at: usize, read: usize) -> Result<(), Ground>
    ensures { result ≡ read_refusal memory.now at read }
{
    let len = memory.len();
    if at % 8 != 0 || len < 8 || len - 8 < at {
        return Err(Ground::NoCommand);
    }
    if 4096 <= read {
        return Err(Ground::TooManyCommands);
    }
    Ok(())
}

impl<'a> Walker<'a> {
    // Before the first command.
    fn new(memory: &'a [u8], out: &'a mut [u8]) -> Walker<'a>
        ensures starts { Starts memory.now out.old result }
        ensures same_output { result.out.ghost_name ≡ out.entry.ghost_name }
    {
        Walker {
            memory,
            out,
            setting: Setting::default(),
            read: 0,
            written: 0,
        }
    }

    // Reads the command at an offset, with `depth` calls open. A command that is refused is not counted.
    fn read_command(&mut self, at: usize, depth: usize) -> Result<Action, Ground>
        ensures reads { ReadIs self.old at depth result self.new }
        ensures same_output { self.new.out.ghost_name ≡ self.old.out.ghost_name }
    {
        read_refusal(self.memory, at, self.read)?;
        let w = rdp_words::word_at(self.memory, at / 8);
        let old = self.setting;
        let setting = setting_after(old, w);
        let action = action_for(old.due, setting, depth, w)?;
        self.setting = setting;
        self.read += 1;
        Ok(action)
    }

    // Runs the command at an offset, with `depth` calls open: the offset of the next command, or none where the list ends.
    #[cycle(run_command_run_list)]
    fn run_command(&mut self, at: usize, depth: usize) -> Result<Option<usize>, Refused>
        requires { depth ≤ self.old.read }
        ensures runs { StepIs self.old at depth result self.new }
        ensures same_output { self.new.out.ghost_name ≡ self.old.out.ghost_name }
    {
        let action = self
            .read_command(at, depth)
            .map_err(|ground| Refused { ground, place: at })?;
        match action {
            Action::Write(x) => {
                put(self.out, self.written, x);
                self.written += 1;
                Ok(Some(at + 8))
            }
            Action::Pass => Ok(Some(at + 8)),
            Action::Call(target) => {
                self.run_list(target, depth + 1)?;
                Ok(Some(at + 8))
            }
            Action::Branch(target) => Ok(Some(target)),
            Action::End => Ok(None),
        }
    }

    // Runs the list at an offset, with `depth` calls open, up to its end.
    #[cycle(run_command_run_list)]
    fn run_list(&mut self, start: usize, depth: usize) -> Result<(), Refused>
        requires { depth ≤ self.old.read }
        ensures runs { ListIs self.old start depth result self.new }
        ensures same_output { self.new.out.ghost_name ≡ self.old.out.ghost_name }
    {
        let mut at = start;
        while let Some(next) = self.run_command(at, depth)? {
            at = next;
        }
        Ok(())
    }
}

// The whole walk.
pub fn walk(memory: &[u8], start: usize, out: &mut [u8]) -> Result<Translated, Untranslated>
    ensures answer { WalkIs (walked memory.now start) result }
    ensures output { out.new ≡ put_words 0 (walked memory.now start).words out.old }
{
    let mut walker = Walker::new(memory, out);
    walker.run_list(start, 0).map_err(|refused| Untranslated {
        ground: refused.ground,
        place: refused.place,
        read: walker.read,
    })?;
    Ok(Translated {
        words: walker.written,
        read: walker.read,
    })
}
