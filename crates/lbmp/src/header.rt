// The header of a file, and the parts that follow it.
ghost use Rattle.std.specs.Prelude.{◌≡◌, ◌+◌, ◌*◌, ◌≤◌, ◌<◌, length, Some};
ghost use Rattle.lbmp.specs.Plane.{plane_size};
ghost use Rattle.lbmp.specs.File.{header_of, kind_of, expected_size, pixel_size, mask_size, pixel_bytes, mask_bytes};
ghost use Rattle.lbmp.specs.Walk.{Whole};

use fields::u32_at;

#[derive(Clone, Copy)]
pub(crate) struct Header {
    pub(crate) kind: u32,
    pub(crate) width: u32,
    pub(crate) height: u32,
    pub(crate) size: u32,
    pub(crate) mask: u32,
}

// How the pixels are stored.
#[derive(Clone, Copy)]
pub(crate) enum Kind {
    Greys,
    Rgb332,
    Rgb565,
}

#[tactic(auto, unfolding(crate::specs::File::header_of))]
pub(crate) fn read_header(file: &[u8]) -> Header
    requires { 24 ≤ length file.now }
    ensures { result ≡ header_of file.now }
{
    Header {
        kind: u32_at(file, 4),
        width: u32_at(file, 8),
        height: u32_at(file, 12),
        size: u32_at(file, 16),
        mask: u32_at(file, 20),
    }
}

#[tactic(auto, unfolding(crate::specs::File::kind_of))]
pub(crate) fn kind_of(kind: u32) -> Option<Kind>
    ensures { result ≡ kind_of kind }
{
    match kind {
        2 => Some(Kind::Greys),
        8 => Some(Kind::Rgb332),
        16 => Some(Kind::Rgb565),
        _ => None,
    }
}

// The bytes of a plane.
#[tactic(auto, unfolding(crate::specs::Plane::plane_size))]
pub(crate) fn plane_size(width: u32, height: u32) -> u64
    ensures { (result ≡ plane_size width height) × (result < 4611686018427387904) }
{
    u64::from(height).div_ceil(8) * u64::from(width)
}

#[tactic(auto, unfolding(crate::specs::File::expected_size))]
pub(crate) fn expected_size(kind: Kind, width: u32, height: u32) -> u64
    requires { width * height ≤ 4294967295 }
    ensures { result ≡ expected_size (Some kind) width height }
{
    match kind {
        Kind::Greys => plane_size(width, height),
        Kind::Rgb332 => u64::from(width) * u64::from(height),
        Kind::Rgb565 => 2 * (u64::from(width) * u64::from(height)),
    }
}

// The bytes of the pixels.
#[tactic(auto, unfolding(crate::specs::File::image_size))]
pub(crate) fn pixel_size(h: Header) -> u64
    ensures { (result ≡ pixel_size h) × (result < 8589934592) }
{
    match kind_of(h.kind) {
        Some(Kind::Greys) => 2 * u64::from(h.size),
        _ => u64::from(h.size),
    }
}

// The bytes of the mask: none where there is no mask.
#[tactic(auto, unfolding(crate::specs::File::mask_size))]
pub(crate) fn mask_size(h: Header) -> u64
    ensures { (result ≡ mask_size h) × (result < 4611686018427387904) }
{
    if h.mask == 1 {
        return plane_size(h.width, h.height);
    }
    0
}

// The pixels' part of the file.
pub(crate) fn pixel_bytes(file: &[u8], h: Header) -> &[u8]
    requires { (h ≡ header_of file.now) × (Whole h (length file.now)) }
    ensures { result.now ≡ pixel_bytes file.now }
{
    let e = 24 + pixel_size(h) as usize;
    &file[24..e]
}

// The mask's part of the file.
pub(crate) fn mask_bytes(file: &[u8], h: Header) -> &[u8]
    requires { (h ≡ header_of file.now) × (Whole h (length file.now)) }
    ensures { result.now ≡ mask_bytes file.now }
{
    let a = 24 + pixel_size(h) as usize;
    let e = a + mask_size(h) as usize;
    &file[a..e]
}
