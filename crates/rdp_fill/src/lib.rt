// A fill rectangle (01, "Fill"): whether it is inside memory, and its pixels painted.
#![tactic(auto)]

ghost use Rattle.std.specs.Prelude.{not, ◌≡◌};
ghost use Rattle.rdp_fill.specs.Fill.{outside, fill_memory};

mod areas;
mod run;

pub use areas::Area;
use rdp_command::FillFields;

// Whether every byte of the kept pixels is in memory of `len` bytes that starts at address `start`: 12 does not hold.
pub fn is_inside(fill: FillFields, start: u64, len: usize) -> bool
    ensures { result ≡ not (outside fill start len) }
{
    Area::of(fill).is_inside(start, len)
}

// Paints a fill into memory that starts at address `start`. One that is not inside memory leaves every byte as it was.
pub fn paint(memory: &mut [u8], start: u64, fill: FillFields)
    ensures { memory.new ≡ fill_memory fill start memory.old }
{
    let area = Area::of(fill);
    if area.is_empty() {
        return;
    }
    if area.is_inside(start, memory.len()) {
        area.runs_from(start).paint(memory, fill.color);
    }
}
