// The texels of a block loaded. A line is the words between which floor(word · dxt / 2048) stays the same: long lines go run by run, short ones word by
// word, which takes as long for every dxt, and then the texels after the last whole word as runs.
ghost use Rattle.std.specs.Prelude.{◌≡◌, ◌+◌, ◌-◌, ◌*◌, ◌/◌, ◌≤◌, length};
ghost use Rattle.rdp_texels.specs.Texels.{loaded};
ghost use Rattle.rdp_block.specs.Strips.{LineEnds, strip_moves};
ghost use Rattle.rdp_block.specs.Views.{Fits, stripped};

use crate::strips::Block;

// The line of a word.
fn line_of(word: u64, dxt: u64) -> u64
    requires { (word ≤ 65536) × (dxt ≤ 65536) }
    ensures { (result ≡ word * dxt / 2048) × (result ≤ 2097152) }
{
    word * dxt / 2048
}

// The end of the texels of a line, of `count` in all.
fn line_end(line: u64, dxt: u64, count: u64) -> u64
    requires { (line ≤ 2097152) × (dxt ≤ 65536) × (count ≤ 65536) }
    ensures { LineEnds line dxt count result }
{
    if dxt == 0 {
        return count;
    }
    let words = ((line + 1) * 2048 + dxt - 1) / dxt;
    count.min(4 * words)
}

// The whole words of a block of short lines, one by one; of one of long lines nothing. It answers the texels that are loaded.
pub fn load_words(memory: &[u8], texture: &mut [u8], block: Block) -> u64
    requires { Fits block (length memory.now) (length texture.old) }
    ensures { (result ≤ block.count) × (texture.new ≡ loaded block.start memory.now (strip_moves (stripped block) 0 result) texture.old) }
{
    if block.dxt <= 128 {
        return 0;
    }
    let from = (block.address - block.start) as usize;
    let to = block.ahead as usize;
    let words = block.count / 4;
    for j in 0..words {
        let s = from + 8 * j as usize;
        let d = to + 8 * j as usize;
        let turned = line_of(j, block.dxt) % 2 == 1;
        rdp_texels::move_eight(&memory[s..s + 8], &mut texture[d..d + 8], turned);
    }
    4 * words
}

// The texels of a block from one on, line by line. A while, as each turn goes to the end of a line, which is computed.
pub fn load_lines(memory: &[u8], texture: &mut [u8], block: Block, first: u64)
    requires { Fits block (length memory.now) (length texture.old) × (first ≤ block.count) }
    ensures { texture.new ≡ loaded block.start memory.now (strip_moves (stripped block) first (block.count - first)) texture.old }
{
    let from = block.address - block.start;
    let to = block.ahead;
    let count = block.count;
    let mut k = first;
    while k < count {
        let line = line_of(k / 4, block.dxt);
        let end = line_end(line, block.dxt, count);
        let s = from + 2 * k;
        let d = to + 2 * k;
        let n = 2 * (end - k);
        rdp_texels::load_run(
            memory,
            s as usize,
            texture,
            d as usize,
            n as usize,
            line % 2 == 1,
        );
        k = end;
    }
}
