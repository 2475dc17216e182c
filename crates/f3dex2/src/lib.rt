// A Fast3DEX2 display list read from a memory, and the RDP list that it stands for.
#![tactic(auto)]

mod command;
mod output;
mod walk;

ghost use Rattle.std.specs.Prelude.{◌≡◌, ◌≤◌, length};
ghost use Rattle.f3dex2.specs.Translate.{told, translate_answer, translate_out};

use rdp_words::Ground;

// The words written and the display list commands read.
#[derive(Clone, Copy, Debug, PartialEq, Eq)]
pub struct Translated {
    pub words: usize,
    pub read: usize,
}

// Why a display list is refused, and the display list commands read. The place is the offset of the refused command; at 14 the words needed.
#[derive(Clone, Copy, Debug, PartialEq, Eq)]
pub struct Untranslated {
    pub ground: Ground,
    pub place: usize,
    pub read: usize,
}

// What the next command must be: any, or a half-word of a texture rectangle. The second holds the value of the first.
#[derive(Clone, Copy, Default)]
pub enum Due {
    #[default]
    Command,
    FirstHalf,
    SecondHalf(u32),
}

// The high and the low word of the other modes, and what is due next.
#[derive(Clone, Copy, Default)]
pub struct Setting {
    pub high: u32,
    pub low: u32,
    pub due: Due,
}

// What a command does: a word is written, nothing but that it is read, a list is called, a list is gone to for good, the list ends.
#[derive(Clone, Copy)]
pub enum Action {
    Write(u64),
    Pass,
    Call(usize),
    Branch(usize),
    End,
}

// A walk: the memory that it reads and the output that it writes, and how far it has come: the setting, the commands read and the words written, at most one
// for each.
#[derive(Drop)]
struct Walker<'a> {
    pub memory: &'a [u8],
    pub out: &'a mut [u8],
    pub setting: Setting,
    pub read: usize,
    pub written: usize,
    ghost few: { written ≤ read },
}

// Why a walk is refused, and the offset of the command.
#[derive(Clone, Copy)]
struct Refused {
    pub ground: Ground,
    pub place: usize,
}

// Writes the RDP list of the display list at an offset of a memory: the words written, or the first of refusals 20 to 23 and 14. A refusal leaves the
// output as it was. The first walk counts the words, the second writes them.
pub fn translate(memory: &[u8], start: usize, out: &mut [u8]) -> Result<Translated, Untranslated>
    ensures answer { told result ≡ translate_answer memory.now start (length out.old) }
    ensures output { out.new ≡ translate_out memory.now start out.old }
{
    let counted = walk::walk(memory, start, &mut [])?;
    let needed = counted.words;
    if out.len() / 8 < needed {
        return Err(Untranslated {
            ground: Ground::OutputTooShort,
            place: needed,
            read: counted.read,
        });
    }
    walk::walk(memory, start, out)
}
