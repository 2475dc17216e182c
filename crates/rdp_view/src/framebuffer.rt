// An image in memory, and what refuses it: its sides and size, and its place in memory.
ghost use Rattle.std.specs.Prelude.{◌≡◌, ◌*◌, ◌-◌, ◌≤◌, true, false, MatchOption, MatchResult};
ghost use Rattle.rdp_view.specs.Sizes.{size_number, no_size};
ghost use Rattle.rdp_view.specs.View.{pixel_bytes, unfit, unviewable, image_outside};

// The sizes of pixels that are shown, by their bits.
#[derive(Clone, Copy)]
pub enum PixelSize {
    Eight,
    Sixteen,
    ThirtyTwo,
}

// Of a number that is no such size.
#[derive(Clone, Copy)]
pub struct NoSize;

impl TryFrom<u32> for PixelSize {
    type Error = NoSize;

    ghost try_from_gives = { λ number result. MatchResult result (λ s. size_number s ≡ number) (λ _. no_size number ≡ true) };

    fn try_from(number: u32) -> Result<PixelSize, NoSize> {
        match number {
            1 => Ok(PixelSize::Eight),
            2 => Ok(PixelSize::Sixteen),
            3 => Ok(PixelSize::ThirtyTwo),
            _ => Err(NoSize),
        }
    }
}

impl PixelSize {
    // The bytes of a pixel.
    pub fn bytes(self) -> usize
        ensures { (result ≡ pixel_bytes (size_number self)) × (result ≤ 4) }
    {
        match self {
            PixelSize::Eight => 1,
            PixelSize::Sixteen => 2,
            PixelSize::ThirtyTwo => 4,
        }
    }
}

// An image with sides of 1 to 1,024 pixels.
#[derive(Clone, Copy)]
pub struct Framebuffer {
    pub address: u64,
    // The pixels of all rows.
    pub count: usize,
    pub size: PixelSize,
    ghost few: { count ≤ 0x100000 },
}

// A width or height that is 0 or above 1,024.
fn is_unfit(side: u32) -> bool
    ensures { result ≡ unfit side }
{
    (side == 0) | (1024 < side)
}

impl Framebuffer {
    // None where the width, the height or the size number is none: 27.
    pub fn of(address: u64, width: u32, height: u32, size: u32) -> Option<Framebuffer>
        ensures { MatchOption result (unviewable width height size ≡ true)
            (λ f. (unviewable width height size ≡ false) × (f.address ≡ address) × (f.count ≡ width * height) × (size_number f.size ≡ size)) }
    {
        if is_unfit(width) | is_unfit(height) {
            return None;
        }
        let size = PixelSize::try_from(size).ok()?;
        Some(Framebuffer {
            address,
            count: width as usize * height as usize,
            size,
        })
    }

    // The index of its first byte in memory of `len` bytes that starts at address `start`; None where its bytes are not all in memory: 12. No sum of addresses
    // is made, which could be too large.
    pub fn index_in(self, start: u64, len: usize) -> Option<usize>
        ensures { let outside = image_outside start len self.address (self.count * pixel_bytes (size_number self.size)) in
            MatchOption result (outside ≡ true) (λ i. (outside ≡ false) × (i ≡ self.address - start)) }
    {
        let from = self.address.checked_sub(start)?;
        let room = len.checked_sub(self.count * self.size.bytes())?;
        if (room as u64) < from {
            return None;
        }
        Some(from as usize)
    }
}
