// The repairs of a command list: the syncs that it misses are inserted, at the least cycles; or all are chosen afresh (#109).
#![tactic(auto)]

ghost use Rattle.rdp_repair.specs.Repair.{told, RepairIs};
ghost use Rattle.rdp_repair.specs.Afresh.{AfreshIs};

mod plan;
mod repairing;

use rdp_words::Refusal;
use repairing::Basis;

// A list that is repaired: the words written, and the cycles of the first repair's inserted syncs or of all syncs that the second one leaves.
#[derive(Clone, Copy, Debug, PartialEq, Eq)]
pub struct Repaired {
    pub words: u32,
    pub cycles: u32,
}

// Writes to out the list with the syncs that it misses inserted, at the least cycles. The work buffer lends sixteen bytes a command. Refusals 1 to 6 and 19 of
// the list, where 7 to 9 are passed over, then 13 and 14 of the room; else the words written and the cycles inserted.
pub fn repair(list: &[u8], work: &mut [u8], out: &mut [u8]) -> Result<Repaired, Refusal>
    ensures { RepairIs list.now work.old out.old (told result) work.new out.new }
{
    Basis {
        list,
        afresh: false,
    }
    .repair(work, out)
}

// #109: writes to out the list without its Load, Tile and Pipe syncs, with those that it then misses, at the least waiting of all lists with its other
// commands. The refusals and the work buffer go by the list as given, 14 by what is written; else the words written and all waiting in them.
pub fn repair_afresh(list: &[u8], work: &mut [u8], out: &mut [u8]) -> Result<Repaired, Refusal>
    ensures { AfreshIs list.now work.old out.old (told result) work.new out.new }
{
    Basis { list, afresh: true }.repair(work, out)
}
