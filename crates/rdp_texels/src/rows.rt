// Rows of texels moved between memory and texture memory.
ghost use Rattle.std.specs.Prelude.{cond, ◌≡◌, ◌<◌, ◌≤◌, length};
ghost use Rattle.rdp_texels.specs.Rows.{moved, corners_refusal, EvenGrid};
ghost use Rattle.rdp_texels.specs.Views.{gridded, spanned, Ready, row_of, rows_from};

use crate::bytes;
use crate::grids::Texels;

// A row of texels, where it is kept.
fn move_row<const INTO: bool>(from: &[u8], to: &mut [u8], texels: Texels, y: u64)
    requires { Ready INTO texels (length from.now) (length to.old) × (texels.window.top ≤ y) × (y < texels.window.bottom) }
    ensures { to.new ≡ moved INTO texels.memory.low from.now (row_of texels y) to.old }
{
    if rdp_pixels::row_kept(texels.window.field, texels.window.odd, y) {
        bytes::move_run::<INTO>(from, to, texels.row::<INTO>(y));
        return;
    }
}

// The rows of texels in order.
fn move_rows<const INTO: bool>(from: &[u8], to: &mut [u8], texels: Texels)
    requires { Ready INTO texels (length from.now) (length to.old) }
    ensures { to.new ≡ moved INTO texels.memory.low from.now (rows_from texels texels.window.top) to.old }
{
    for y in texels.window.top..texels.window.bottom {
        move_row::<INTO>(from, to, texels, y);
    }
}

// Texels of which none is refused, INTO texture memory or out of it.
pub fn move_texels<const INTO: bool>(from: &[u8], to: &mut [u8], texels: Texels)
    requires size { cond INTO (length to.old) (length from.now) ≡ 4096 }
    requires even { EvenGrid (gridded texels) }
    requires fits { corners_refusal (gridded texels) (spanned texels.window) (cond INTO (length from.now) (length to.old)) ≡ 0 }
    ensures { to.new ≡ moved INTO texels.memory.low from.now (rows_from texels texels.window.top) to.old }
{
    if texels.is_some() {
        move_rows::<INTO>(from, to, texels);
        return;
    }
}
