// Pixels of 8, 16 and 32 bits as red, green, blue and alpha.
ghost use Rattle.std.specs.Prelude.{◌≡◌, ◌+◌, ◌*◌, ◌<◌, ◌≤◌, length, take};
ghost use Rattle.rdp_words.specs.Words.{overwrite};
ghost use Rattle.rdp_view.specs.Sizes.{size_number};
ghost use Rattle.rdp_view.specs.View.{pixel_bytes, channel, of_sixteen, rgba, pixels};

use crate::framebuffer::PixelSize;

// A five-bit channel as eight bits.
fn wide(v: u8) -> u8
    requires { v < 32 }
    ensures { result ≡ channel v }
{
    8 * v + v / 4
}

// A pixel of 16 bits: five bits of red, green and blue each, and one of alpha.
fn of_sixteen(high: u8, low: u8) -> [u8; 4]
    ensures { result ≡ of_sixteen (high * 256 + low) }
{
    let red = wide(high / 8);
    let green = wide(high % 8 * 4 + low / 64);
    let blue = wide(low / 2 % 32);
    [red, green, blue, low % 2 * 255]
}

// The pixel that bytes begin with.
#[tactic(auto, unfolding(crate::specs::View::rgba))]
fn first_pixel(image: &[u8], size: PixelSize) -> [u8; 4]
    requires { pixel_bytes (size_number size) ≤ length image.now }
    ensures { result ≡ rgba (size_number size) image.now }
{
    match size {
        PixelSize::Eight => [image[0], image[0], image[0], 255],
        PixelSize::Sixteen => of_sixteen(image[0], image[1]),
        PixelSize::ThirtyTwo => [image[0], image[1], image[2], image[3]],
    }
}

// Writes a pixel. By `rdp_words::copy` the bench's view of 32 bits takes a quarter longer.
fn put(part: &mut [u8], pixel: [u8; 4])
    requires { length part.old ≡ 4 }
    ensures { part.new ≡ take 4 pixel }
{
    for (i, byte) in part.iter_mut().enumerate() {
        *byte = pixel[i];
    }
}

// Writes so many pixels of an image to the front of the output. Where it is called the size is a constant, so that the compiler knows the step.
#[inline(always)]
fn write_sized(image: &[u8], size: PixelSize, count: usize, out: &mut [u8])
    requires { (count * pixel_bytes (size_number size) ≤ length image.now) × (4 * count ≤ length out.old) }
    ensures { out.new ≡ overwrite (pixels (size_number size) count image.now) out.old }
{
    let step = size.bytes();
    for k in 0..count {
        let pixel = first_pixel(&image[step * k..], size);
        let to = 4 * k;
        put(&mut out[to..to + 4], pixel);
    }
}

// The same for any size. One loop for all sizes takes 2.5 times as long in the bench's rows of 16 and 32 bits.
pub fn write(image: &[u8], size: PixelSize, count: usize, out: &mut [u8])
    requires { (count * pixel_bytes (size_number size) ≤ length image.now) × (4 * count ≤ length out.old) }
    ensures { out.new ≡ overwrite (pixels (size_number size) count image.now) out.old }
{
    match size {
        PixelSize::Eight => write_sized(image, PixelSize::Eight, count, out),
        PixelSize::Sixteen => write_sized(image, PixelSize::Sixteen, count, out),
        PixelSize::ThirtyTwo => write_sized(image, PixelSize::ThirtyTwo, count, out),
    }
}
