// The texels of a load and of a copy rectangle, by its fields.
ghost use Rattle.std.specs.Prelude.{◌≡◌, ◌+◌, ◌-◌, ◌*◌, ◌/◌, ◌≤◌};
ghost use Rattle.rdp_texels.specs.Texels.{ahead_of, behind_of};
ghost use Rattle.rdp_texels.specs.Rows.{load_grid, load_span, copy_grid, copy_span, rows_up, columns_left, bottom_from};
ghost use Rattle.rdp_texels.specs.Views.{gridded, spanned};

use crate::grids::{Corner, Plane, Texels, Window};
use rdp_command::{CopyFields, LoadFields};

// What a whole number is above 0, and what it is below.
fn above(z: i16) -> u64
    ensures { (result ≡ ahead_of z) × (result ≤ 32768) }
{
    u64::from(z.max(0).unsigned_abs())
}

fn below(z: i16) -> u64
    ensures { (result ≡ behind_of z) × (result ≤ 32768) }
{
    u64::from(z.min(0).unsigned_abs())
}

// An image in memory that starts at `start`.
fn memory_plane(address: u32, width: u16, start: u64) -> Plane
    ensures { (result.base ≡ address) × (result.stride ≡ 2 * (width + 1)) × (result.low ≡ start) }
{
    Plane {
        base: address as u64,
        stride: 2 * (width as u64 + 1),
        low: start,
    }
}

// The texture bytes of some rows and columns.
fn texture_bytes(line: u16, rows: u64, columns: u64) -> u64
    requires { (rows ≤ 40000) × (columns ≤ 40000) }
    ensures { (result ≡ 8 * (line * rows) + 2 * columns) × (result ≤ 21000000000) }
{
    8 * (line as u64 * rows) + 2 * columns
}

// A tile's texels in texture memory.
fn texture_plane(tmem: u16, line: u16, corner: Corner) -> Plane
    ensures base { result.base ≡ 8 * tmem + (8 * (line * corner.down) + 2 * corner.right) }
    ensures stride { result.stride ≡ 8 * line }
    ensures low { result.low ≡ 8 * (line * corner.up) + 2 * corner.left }
{
    Plane {
        base: 8 * (tmem as u64) + texture_bytes(line, corner.down, corner.right),
        stride: 8 * (line as u64),
        low: texture_bytes(line, corner.up, corner.left),
    }
}

// The texels of a load: in a tile that begins with its first row and column.
pub fn of_load(load: LoadFields, start: u64) -> Texels
    ensures grid { gridded result ≡ load_grid start load }
    ensures span { spanned result.window ≡ load_span load }
{
    let near = load.area.upper_left;
    let far = load.area.lower_right;
    let left = near.s as u64 / 4;
    let top = near.t as u64 / 4;
    let corner = Corner {
        down: 0,
        right: 0,
        up: top,
        left,
    };
    let window = Window {
        left,
        right: far.s as u64 / 4 + 1,
        top,
        bottom: far.t as u64 / 4 + 1,
        field: false,
        odd: false,
    };
    Texels {
        memory: memory_plane(load.image.address, load.image.width, start),
        texture: texture_plane(load.tile.address, load.tile.line, corner),
        turn: top,
        window,
    }
}

// The end of the rows before one that the scissor's field setting keeps.
fn bottom_from(field: bool, odd: bool, y: u64) -> u64
    requires { y ≤ 16384 }
    ensures { (result ≡ bottom_from «field» odd y) × (result ≤ 16384) }
{
    let last = y.saturating_sub(1);
    if rdp_pixels::row_kept(field, odd, last) {
        y
    } else {
        last
    }
}

// A copy rectangle's kept pixels.
fn copy_window(copy: CopyFields) -> Window
    ensures { spanned result ≡ copy_span copy }
{
    let near = copy.rectangle.upper_left;
    let far = copy.rectangle.lower_right;
    let low = copy.scissor.upper_left;
    let high = copy.scissor.lower_right;
    let field = copy.scissor.field;
    let odd = copy.scissor.odd;
    Window {
        left: rdp_pixels::first_kept(near.x, low.x),
        right: rdp_pixels::end_kept(far.x, high.x),
        top: rdp_pixels::first_kept_row(near.y, low.y, field, odd),
        bottom: bottom_from(field, odd, rdp_pixels::end_kept(far.y, high.y)),
        field,
        odd,
    }
}

// The texel of pixel (0, 0) in a copy rectangle's tile: what is taken away is a texture coordinate below 0, the rectangle's own first row and column, and the
// tile's.
fn copy_corner(copy: CopyFields) -> Corner
    ensures ahead { (result.down ≡ ahead_of copy.rectangle.step.t / 32) × (result.right ≡ ahead_of copy.rectangle.step.s / 32) }
    ensures up { result.up ≡ rows_up copy }
    ensures left { result.left ≡ columns_left copy }
{
    let step = copy.rectangle.step;
    let near = copy.rectangle.upper_left;
    let tile = copy.tile_corner;
    Corner {
        down: above(step.t) / 32,
        right: above(step.s) / 32,
        up: below(step.t) / 32 + near.y as u64 / 4 + tile.t as u64 / 4,
        left: below(step.s) / 32 + near.x as u64 / 4 + tile.s as u64 / 4,
    }
}

// The texels of a copy rectangle's kept pixels.
pub fn of_copy(copy: CopyFields, start: u64) -> Texels
    ensures grid { gridded result ≡ copy_grid start copy }
    ensures span { spanned result.window ≡ copy_span copy }
{
    let corner = copy_corner(copy);
    Texels {
        memory: memory_plane(copy.image.address, copy.image.width, start),
        texture: texture_plane(copy.tile.address, copy.tile.line, corner),
        turn: corner.down + corner.up,
        window: copy_window(copy),
    }
}
