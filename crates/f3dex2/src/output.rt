// A word written to an output, where there is room.
ghost use Rattle.std.specs.Prelude.{◌≡◌};
ghost use Rattle.f3dex2.specs.Steps.{put_word};

// Writes word k of an output, or nothing where it does not fit.
pub fn put(out: &mut [u8], k: usize, w: u64)
    ensures { out.new ≡ put_word k w out.old }
{
    if k < out.len() / 8 {
        let bytes = rdp_words::bytes_of(w);
        let at = 8 * k;
        let end = at + 8;
        out[at..end].copy_from_slice(&bytes);
    }
}
