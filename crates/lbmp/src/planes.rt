// Counting the bits of a mask.
ghost use Rattle.std.specs.Prelude.{◌≡◌, ◌-◌, ◌*◌, ◌≤◌, ◌^◌, length, sum_by};
ghost use Rattle.std.specs.Int.Bits.{bit_and};
ghost use Rattle.std.specs.Int.Count.{ones};
ghost use Rattle.lbmp.specs.File.{mask_size};
ghost use Rattle.lbmp.specs.Plane.{plane_size};
ghost use Rattle.lbmp.specs.Image.{clear_in};

use crate::header::Header;

// The ones of the bytes, of each the bits kept.
fn count_ones(bytes: &[u8], keep: u8) -> u64
    requires { length bytes.now ≤ 4294967296 }
    ensures { result ≡ sum_by (λ b. ones (bit_and b keep)) bytes.now }
{
    bytes
        .iter()
        .map(|byte| u64::from((byte & keep).count_ones()))
        .sum()
}

// The bits that so many rows have in a byte.
fn kept_bits(rows: u32) -> u8
    requires { rows ≤ 7 }
    ensures { result ≡ 2 ^ rows - 1 }
{
    (1 << rows) - 1
}

// The pixels whose bit is set, without bits of rows beyond the height.
fn clear_in(m: &[u8], width: u32, height: u32) -> u64
    requires { (plane_size width height ≡ length m.now) × (width * height ≤ 4294967295) }
    ensures { result ≡ clear_in m.now width (width * height) }
{
    let full = height as usize / 8 * width as usize;
    let (whole, last) = m.split_at(full);
    count_ones(whole, 255) + count_ones(last, kept_bits(height % 8))
}

// The transparent pixels of an image with this mask.
pub(crate) fn clear_of(m: &[u8], h: Header) -> u64
    requires { (mask_size h ≡ length m.now) × (h.width * h.height ≤ 4294967295) }
    ensures { result ≡ clear_in m.now h.width (h.width * h.height) }
{
    if h.mask == 1 {
        return clear_in(m, h.width, h.height);
    }
    0
}
