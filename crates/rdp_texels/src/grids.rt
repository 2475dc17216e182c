// The texels that move as a grid over two memories, and whether they lie inside both.
ghost use Rattle.std.specs.Prelude.{◌≡◌, ◌+◌, ◌-◌, ◌*◌, ◌<◌, ◌≤◌, ◌&&◌, leb};
ghost use Rattle.rdp_texels.specs.Run.{run_fits};

use crate::TEXTURE_BYTES;
use crate::bytes::Run;
use rdp_words::Ground;

// Whether the bytes from `first` up to `end` lie among `size` from `low` on. Nothing is added to `low`, which could wrap.
pub fn lies_in(first: u64, end: u64, low: u64, size: u64) -> bool
    ensures { result ≡ (leb low first && leb end (low + size)) }
{
    (low <= first) & (end.saturating_sub(low) <= size)
}

// Whether n bytes from one on are among `size`. Nothing is added to the first, which could wrap.
fn holds(size: usize, first: usize, n: usize) -> bool
    ensures { result ≡ leb (first + n) size }
{
    (first <= size) & (n <= size.saturating_sub(first))
}

// Whether n bytes from s on are in memory of `len` bytes, and n from d on in texture memory.
pub fn run_fits(len: usize, s: usize, size: usize, d: usize, n: usize) -> bool
    ensures { result ≡ run_fits len s size d n }
{
    (size == TEXTURE_BYTES) & (holds(len, s, n) & holds(size, d, n))
}

// Where texels lie in a memory: the one in column x and row y has the two bytes from `base + y stride + 2 x` on, and the memory begins at `low`. The bounds
// keep every sum and product far from wrapping.
#[derive(Clone, Copy)]
pub struct Plane {
    pub base: u64,
    pub stride: u64,
    pub low: u64,
    ghost small: { (base ≤ 68719476736) × (stride ≤ 524288) },
}

impl Plane {
    ghost use Rattle.rdp_texels.specs.Rows.{lies};
    ghost use Rattle.rdp_texels.specs.Views.{spanned};

    // The place of the texel in column x and row y.
    fn place(self, x: u64, y: u64) -> u64
        requires { (x ≤ 16384) × (y ≤ 16385) }
        ensures { (result ≡ self.base + y * self.stride + 2 * x) × (result ≤ 137438953472) }
    {
        self.base + y * self.stride + 2 * x
    }

    // Its index in the memory, where it is not before that.
    fn index(self, x: u64, y: u64) -> usize
        requires { (x ≤ 16384) × (y ≤ 16385) × (self.low ≤ self.base + y * self.stride + 2 * x) }
        ensures { result ≡ self.base + y * self.stride + 2 * x - self.low }
    {
        (self.place(x, y) - self.low) as usize
    }

    // Whether every texel of a span that has one lies among the first `size` bytes of the memory.
    fn holds(self, window: Window, size: u64) -> bool
        ensures { result ≡ lies self.base self.stride (spanned window) self.low size }
    {
        let first = self.place(window.left, window.top);
        let end = self.place(window.right, window.bottom.saturating_sub(1));
        lies_in(first, end, self.low, size)
    }
}

// Where the texel of row 0 and column 0 stands in a tile: in row `down` less `up` and column `right` less `left`.
#[derive(Clone, Copy)]
pub struct Corner {
    pub down: u64,
    pub right: u64,
    pub up: u64,
    pub left: u64,
    ghost small: { (down ≤ 16384) × (right ≤ 16384) × (up ≤ 40000) × (left ≤ 40000) },
}

// Columns from `left` up to `right`, and rows from `top` up to `bottom`, the ends not included. With `field` set, only the odd or the even rows count.
#[derive(Clone, Copy)]
pub struct Window {
    pub left: u64,
    pub right: u64,
    pub top: u64,
    pub bottom: u64,
    pub field: bool,
    pub odd: bool,
    ghost small: { (left ≤ 16384) × (right ≤ 16384) × (top ≤ 16385) × (bottom ≤ 16384) },
}

impl Window {
    ghost use Rattle.rdp_texels.specs.Rows.{span_some};
    ghost use Rattle.rdp_texels.specs.Views.{spanned};

    // Whether it has a row and a column.
    fn is_some(self) -> bool
        ensures { result ≡ span_some (spanned self) }
    {
        (self.left < self.right) & (self.top < self.bottom)
    }
}

// The texels of some rows and columns in memory and in texture memory, where those of a row are turned if y + turn is odd.
#[derive(Clone, Copy)]
pub struct Texels {
    pub memory: Plane,
    pub texture: Plane,
    pub turn: u64,
    pub window: Window,
    ghost small: { turn ≤ 65536 },
}

impl Texels {
    ghost use Rattle.rdp_words.specs.Grounds.{number_unless};
    ghost use Rattle.rdp_texels.specs.Rows.{span_some, grid_odd, corners_refusal, RowStarts};
    ghost use Rattle.rdp_texels.specs.Views.{gridded, spanned, row_run};

    pub fn is_some(self) -> bool
        ensures { result ≡ span_some (spanned self.window) }
    {
        self.window.is_some()
    }

    // 12, else 18.
    pub fn refusal(self, len: usize) -> Result<(), Ground>
        ensures { number_unless result ≡ corners_refusal (gridded self) (spanned self.window) len }
    {
        if !self.window.is_some() {
            return Ok(());
        }
        if !self.memory.holds(self.window, len as u64) {
            return Err(Ground::OutsideMemory);
        }
        if !self.texture.holds(self.window, TEXTURE_BYTES as u64) {
            return Err(Ground::OutsideTexture);
        }
        Ok(())
    }

    // Whether a row's texels are turned: the row of its texture, or of the block loaded, is odd.
    fn is_turned(self, y: u64) -> bool
        requires { y ≤ 16384 }
        ensures { result ≡ grid_odd (gridded self) y }
    {
        (y + self.turn) % 2 == 1
    }

    // A row as a run of bytes, INTO texture memory or out of it.
    pub fn row<const INTO: bool>(self, y: u64) -> Run
        requires { (y < self.window.bottom) × RowStarts (gridded self) (spanned self.window) y }
        ensures { result ≡ row_run INTO (gridded self) (spanned self.window) y }
    {
        let left = self.window.left;
        let memory = self.memory.index(left, y);
        let texture = self.texture.index(left, y);
        let (s, d) = if INTO {
            (memory, texture)
        } else {
            (texture, memory)
        };
        Run {
            s,
            d,
            n: (2 * (self.window.right - left)) as usize,
            odd: self.is_turned(y),
        }
    }
}
