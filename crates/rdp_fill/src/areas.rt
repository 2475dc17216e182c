// The bytes of a fill's kept pixels, as runs.
ghost use Rattle.std.specs.Prelude.{◌≡◌, ◌+◌, ◌*◌, ◌-◌, ◌<◌, ◌≤◌};
ghost use Rattle.rdp_fill.specs.Fill.{bytes_per_pixel};
ghost use Rattle.rdp_fill.specs.Runs.{runs_from, area_empty, area_inside, area_of, kept_rows, run_bytes, stride_of};

use crate::run::Runs;
use rdp_command::FillFields;
use std::marker::Model;

// The bytes of the kept pixels of a fill: `rows` runs of `size` bytes each, the first at the address `first`, each next one `stride` bytes on.
#[derive(Clone, Copy)]
pub struct Area {
    pub first: u64,
    pub size: u64,
    pub stride: u64,
    pub rows: u64,
}

impl Model for Area {
    ghost use Rattle.rdp_fill.specs.Runs.{Area as Runs, SmallArea};

    ghost Value = { Runs };

    ghost view = { λ a. record { first = a.first; size = a.size; stride = a.stride; rows = a.rows } };

    ghost inverse = { λ r. record { first = r.first; size = r.size; stride = r.stride; rows = r.rows } };

    ghost invariant = { λ a. SmallArea (record { first = a.first; size = a.size; stride = a.stride; rows = a.rows }) };
}

// The bytes of some pixels. The bounds below are those of fields of 16 bits; they keep every sum and product far from wrapping.
#[tactic(auto, unfolding(crate::specs::Fill::bytes_per_pixel))]
fn bytes_of(pixels: u64, size: u8) -> u64
    requires { pixels ≤ 4294967296 }
    ensures { (result ≡ pixels * bytes_per_pixel size) × (result ≤ 4 * pixels) }
{
    match size {
        1 => pixels,
        2 => pixels * 2,
        3 => pixels * 4,
        _ => 0,
    }
}

// The number of kept rows: with field set, every second one.
#[tactic(auto, unfolding(crate::specs::Runs::kept_rows))]
fn kept_rows(fill: FillFields) -> u64
    ensures { (result ≡ kept_rows fill) × (result ≤ 16384) }
{
    let clip = fill.scissor.upper_left.y;
    let near = fill.rectangle.upper_left.y;
    let first = rdp_pixels::first_kept_row(near, clip, fill.scissor.field, fill.scissor.odd);
    let end = rdp_pixels::end_kept(fill.rectangle.lower_right.y, fill.scissor.lower_right.y);
    let rows = end.saturating_sub(first);
    if fill.scissor.field {
        (rows + 1) / 2
    } else {
        rows
    }
}

// From a kept row to the next, in bytes.
#[tactic(auto, unfolding(crate::specs::Runs::row_step))]
fn stride_of(fill: FillFields) -> u64
    ensures { (result ≡ stride_of fill) × (result ≤ 1048576) }
{
    let bytes = bytes_of(fill.image.width as u64 + 1, fill.image.size);
    if fill.scissor.field { 2 * bytes } else { bytes }
}

// The bytes of the kept pixels of a row.
fn run_bytes(fill: FillFields) -> u64
    ensures { (result ≡ run_bytes fill) × (result ≤ 65536) }
{
    let first = rdp_pixels::first_kept(fill.rectangle.upper_left.x, fill.scissor.upper_left.x);
    let end = rdp_pixels::end_kept(fill.rectangle.lower_right.x, fill.scissor.lower_right.x);
    bytes_of(end.saturating_sub(first), fill.image.size)
}

// The address of pixel (x, y). The parts of the image come one by one: a copy of it would wait for them.
fn pixel_address(address: u32, width: u16, size: u8, x: u64, y: u64) -> u64
    requires { (x ≤ 16384) × (y ≤ 16385) }
    ensures { (result ≡ address + (y * (width + 1) + x) * bytes_per_pixel size) × (result ≤ 17179869184) }
{
    let across = width as u64 + 1;
    address as u64 + bytes_of(y * across + x, size)
}

impl Area {
    // The kept pixels of a fill as runs of bytes, a run for each kept row.
    pub(crate) fn of(fill: FillFields) -> Area
        ensures { result ≡ area_of fill }
    {
        let x = rdp_pixels::first_kept(fill.rectangle.upper_left.x, fill.scissor.upper_left.x);
        let clip = fill.scissor.upper_left.y;
        let near = fill.rectangle.upper_left.y;
        let y = rdp_pixels::first_kept_row(near, clip, fill.scissor.field, fill.scissor.odd);
        Area {
            first: pixel_address(fill.image.address, fill.image.width, fill.image.size, x, y),
            size: run_bytes(fill),
            stride: stride_of(fill),
            rows: kept_rows(fill),
        }
    }

    // Whether no byte is in a run.
    pub(crate) fn is_empty(&self) -> bool
        ensures { result ≡ area_empty self.now }
    {
        (self.size == 0) | (self.rows == 0)
    }

    // The bytes from the first run's start to the last run's end.
    fn extent(&self) -> u64
        requires { 0 < self.now.rows }
        ensures { (result ≡ (self.now.rows - 1) * self.now.stride + self.now.size) × (result ≤ 17179934720) }
    {
        (self.rows - 1) * self.stride + self.size
    }

    // Whether every run lies in `len` bytes of memory that starts at address `start`. Nothing is added to `start`, which could wrap.
    pub(crate) fn is_inside(&self, start: u64, len: usize) -> bool
        ensures { result ≡ area_inside self.now start len }
    {
        if self.is_empty() {
            return true;
        }
        if self.first < start {
            return false;
        }
        self.first - start + self.extent() <= len as u64
    }

    // The runs by the indices of memory that starts at an address.
    pub(crate) fn runs_from(&self, start: u64) -> Runs
        requires { start ≤ self.now.first }
        ensures { result ≡ runs_from start self.now }
    {
        Runs {
            start,
            from: (self.first - start) as usize,
            size: self.size as usize,
            stride: self.stride as usize,
            rows: self.rows as usize,
        }
    }
}
