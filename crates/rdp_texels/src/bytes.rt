// A run of bytes: in an even row it is copied as it stands, in an odd one with the halves of each eight bytes of texture memory exchanged.
ghost use Rattle.std.specs.Prelude.{false, not, cond, eqb, ◌&&◌, ◌≡◌, ◌+◌, ◌-◌, ◌*◌, ◌%◌, ◌<◌, ◌≤◌, ◌++◌, length, take, drop};
ghost use Rattle.rdp_texels.specs.Run.{part};
ghost use Rattle.rdp_texels.specs.Rows.{exchanged};
ghost use Rattle.rdp_texels.specs.Views.{RunFits, run_moved};
ghost use Rattle.rdp_texels.specs.Texels.{in_row};

// A run of n bytes, from index s on to index d on, of a row of texture memory that may be odd. The functions below move it INTO texture memory, or out of it.
#[derive(Clone, Copy)]
pub struct Run {
    pub s: usize,
    pub d: usize,
    pub n: usize,
    pub odd: bool,
}

// A byte number, with its bit 2 turned over in an odd row of texture memory.
#[tactic(auto, using(crate::proofs::TurnLaws::turned_xor))]
fn turn(b: usize, odd: bool) -> usize
    ensures { result ≡ in_row odd b }
{
    if odd { b ^ 4 } else { b }
}

// How many bytes of a run stand before the first that starts eight bytes of texture memory.
fn head<const INTO: bool>(run: Run) -> usize
    ensures { (result ≤ run.n) × (result < run.n → (cond INTO run.d run.s + result) % 8 ≡ 0) }
{
    let at = if INTO { run.d } else { run.s };
    run.n.min((8 - at % 8) % 8)
}

// Eight bytes over eight others, whose halves exchange places where they are turned; of other lengths nothing moves. All are read before one is written, so
// that more of them move at a time.
pub fn move_eight(from: &[u8], to: &mut [u8], turned: bool)
    ensures { to.new ≡
        cond (eqb (length from.now) 8 && eqb (length to.old) 8) (cond turned (drop 4 from.now ++ take 4 from.now) from.now)
        to.old }
{
    if from.len() != 8 || to.len() != 8 {
        return;
    }
    let low = [from[0], from[1], from[2], from[3]];
    let high = [from[4], from[5], from[6], from[7]];
    let first = if turned { high } else { low };
    let second = if turned { low } else { high };
    to[0..4].copy_from_slice(&first);
    to[4..8].copy_from_slice(&second);
}

// Some eights of bytes, from index s on to index d on, whose halves exchange places.
fn exchange_groups(from: &[u8], s: usize, to: &mut [u8], d: usize, groups: usize)
    requires { (s + 8 * groups ≤ length from.now) × (d + 8 * groups ≤ length to.old) }
    ensures { to.new ≡ exchanged s d (8 * groups) from.now to.old }
{
    for i in 0..groups {
        let k = 8 * i;
        move_eight(&from[s + k..s + k + 8], &mut to[d + k..d + k + 8], true);
    }
}

// Bytes a up to b of an odd run, one by one.
fn move_turned<const INTO: bool>(from: &[u8], to: &mut [u8], run: Run, a: usize, b: usize)
    requires { RunFits INTO run (length from.now) (length to.old) × (a ≤ b) × (b ≤ run.n) }
    ensures { to.new ≡ part INTO (not INTO) run.s run.d a b from.now to.old }
{
    for k in a..b {
        to[turn(run.d + k, INTO)] = from[turn(run.s + k, !INTO)];
    }
}

// Moves a run. Of an odd one the first bytes, up to where eight bytes of texture memory start, and the last ones go one by one.
pub fn move_run<const INTO: bool>(from: &[u8], to: &mut [u8], run: Run)
    requires { RunFits INTO run (length from.now) (length to.old) }
    ensures { to.new ≡ run_moved INTO run from.now to.old }
{
    if !run.odd {
        rdp_words::copy(&mut to[run.d..run.d + run.n], &from[run.s..run.s + run.n]);
        return;
    }
    let first = head::<INTO>(run);
    let groups = (run.n - first) / 8;
    move_turned::<INTO>(from, to, run, 0, first);
    exchange_groups(from, run.s + first, to, run.d + first, groups);
    move_turned::<INTO>(from, to, run, first + 8 * groups, run.n);
}
