// Runs of bytes written with the fill colour, which is laid out as a pattern of bytes first.
ghost use Rattle.std.specs.Prelude.{◌≡◌, ℕ, ◌+◌, ◌-◌, ◌%◌, ◌^◌, ◌<◌, ◌≤◌, length, take};
ghost use Rattle.rdp_fill.specs.Fill.{color_byte};
ghost use Rattle.rdp_pixels.specs.Overlay.{overlay};
ghost use Rattle.rdp_fill.specs.Pattern.{Holds, Follows};
ghost use Rattle.rdp_fill.specs.Runs.{is_in, Fit, IsJoined};

// Runs of bytes of memory that starts at address `start`, by index: `rows` runs of `size` bytes each, the first at `from` and each next one `stride` on.
#[derive(Drop)]
pub struct Runs {
    pub start: u64,
    pub from: usize,
    pub size: usize,
    pub stride: usize,
    pub rows: usize,
}

// Writes as many bytes of the pattern as there are. By `copy_from_slice`, which compares the two addresses, a fill of 300x200 in 320 takes 1.7 times as long.
fn copy(part: &mut [u8], pattern: &[u8])
    requires { length part.old ≤ length pattern.now }
    ensures { part.new ≡ take (length part.old) pattern.now }
{
    for (k, byte) in part.iter_mut().enumerate() {
        *byte = pattern[k];
    }
}

// Writes the pattern's first N bytes over and over, as long as there is room for all of them. It answers the index that it reached.
fn blocks<const N: usize>(run: &mut [u8], pattern: &[u8]) -> usize
    requires { (0 < N) × (N % 4 ≡ 0) × (N ≤ length pattern.now) }
    ensures reached { (result ≤ length run.old) × (length run.old < result + N) × (result % 4 ≡ 0) }
    ensures bytes { Follows pattern.now run.new result }
{
    let count = run.len() / N;
    for k in 0..count {
        let at = N * k;
        copy(&mut run[at..at + N], pattern);
    }
    N * count
}

// Writes the last N bytes of a run. Some of them may be written already, and get the bytes that they have.
#[inline(always)]
fn end<const N: usize>(run: &mut [u8], pattern: &[u8])
    requires { (N ≤ length run.old) × (N + 3 ≤ length pattern.now) }
    ensures { (n : ℕ) → length run.old ≤ n + N → Follows pattern.now run.old n → Follows pattern.now run.new (length run.old) }
{
    let at = run.len() - N;
    copy(&mut run[at..], &pattern[at % 4..]);
}

// Writes a run N bytes at a time.
#[inline(always)]
fn cover<const N: usize>(run: &mut [u8], pattern: &[u8])
    requires { (0 < N) × (N % 4 ≡ 0) × (N ≤ length run.old) × (N + 3 ≤ length pattern.now) }
    ensures { Follows pattern.now run.new (length run.old) }
{
    let reached = blocks::<N>(run, pattern);
    if reached < run.len() {
        end::<N>(run, pattern);
    }
}

// Writes a run of any length, most of it N bytes at a time.
fn write_run<const N: usize>(run: &mut [u8], pattern: &[u8])
    requires { (16 ≤ N) × (N % 4 ≡ 0) × (N + 3 ≤ length pattern.now) }
    ensures { Follows pattern.now run.new (length run.old) }
{
    match run.len() {
        0..=3 => copy(run, pattern),
        4..=7 => cover::<4>(run, pattern),
        8..=15 => cover::<8>(run, pattern),
        16..=31 => cover::<16>(run, pattern),
        len => {
            let reached = blocks::<N>(run, pattern);
            match len - reached {
                0 => (),
                1..=15 => end::<16>(run, pattern),
                _ => copy(&mut run[reached..], pattern),
            }
        }
    }
}

// Lays out the colour's four bytes, over and over, where the pattern stands: an array that is answered lies on the stack once more at each move.
fn lay_pattern(pattern: &mut [u8], color: u32)
    requires { length pattern.old % 4 ≡ 0 }
    ensures { Holds color 0 pattern.new (length pattern.old) }
{
    let _ = blocks::<4>(pattern, &color.to_be_bytes());
}

// Writes runs, N bytes at a time. It stays a function of its own, and the code that calls it as it was. The parts of the runs are read one by one, before
// memory is written: a copy would wait for them, and a byte that is written could be one of theirs.
#[inline(never)]
fn paint_with<const N: usize, const P: usize>(memory: &mut [u8], runs: &Runs, color: u32)
    requires pattern { (16 ≤ N) × (N % 4 ≡ 0) × (N + 6 ≤ P) × (P % 4 ≡ 0) × (P ≤ 4096) }
    requires fit { Fit runs.now (length memory.old) }
    ensures { memory.new ≡ overlay (is_in runs.now) (λ i. color_byte color (runs.now.start + i)) 0 memory.old }
{
    let mut bytes = [0u8; P];
    lay_pattern(&mut bytes, color);
    let pattern = &bytes[..];
    let turn = (runs.start % 4) as usize;
    let (from, size, stride) = (runs.from, runs.size, runs.stride);
    for row in 0..runs.rows {
        let at = from + row * stride;
        let phase = (turn + at) % 4;
        write_run::<N>(&mut memory[at..at + size], &pattern[phase..]);
    }
}

impl Runs {
    // Runs that are adjacent are one.
    fn joined(self) -> Runs
        requires { Fit self (2 ^ 64 - 1) }
        ensures { IsJoined self result }
    {
        if self.size != self.stride {
            return self;
        }
        Runs {
            start: self.start,
            from: self.from,
            size: self.rows * self.size,
            stride: self.stride,
            rows: 1,
        }
    }

    // Writes the fill colour to all of them. To lay out the long pattern takes as long as to write a few thousand bytes with the short one.
    pub fn paint(self, memory: &mut [u8], color: u32)
        requires { Fit self (length memory.old) }
        ensures { memory.new ≡ overlay (is_in self) (λ i. color_byte color (self.start + i)) 0 memory.old }
    {
        let runs = self.joined();
        if (runs.size < 1024) | ((runs.size < 8192) & (runs.rows < 8)) {
            paint_with::<16, 32>(memory, &runs, color);
            return;
        }
        paint_with::<2048, 2056>(memory, &runs, color);
    }
}
