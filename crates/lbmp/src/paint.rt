// Writing the words of an image: colours first, and then the mask over them.
ghost use Rattle.std.specs.Prelude.{◌≡◌, ◌+◌, ◌*◌, ◌≤◌, ◌<◌, ◌/◌, ◌%◌, ◌^◌, ◌++◌, length, drop, Some, ℕ};
ghost use Rattle.fields.specs.Fields.{u8_at};
ghost use Rattle.words.specs.Format.{argb};
ghost use Rattle.words.specs.Word.{from_color};
ghost use Rattle.words.specs.Table.{fives, sixes, back332};
ghost use Rattle.lbmp.specs.declared.header.Kind.TheVariants.{Greys};
ghost use Rattle.lbmp.specs.Plane.{plane_size};
ghost use Rattle.lbmp.specs.File.{kind_of, header_of, pixel_size};
ghost use Rattle.lbmp.specs.Image.{grey_color, at332, at565, color_at, image, pixels};
ghost use Rattle.lbmp.specs.Walk.{swept, painted, veiled, veil, Makes, Fair, Whole};

use crate::header::{Header, Kind, kind_of};
use fields::{u8_at, u16_at};
use words::Color;

// A bit of a byte of a plane.
fn bit(p: &[u8], i: usize, s: u32) -> u32
    requires { (i + 1 ≤ length p.now) × (s < 8) }
    ensures { (result ≡ u8_at p.now i / 2 ^ s % 2) × (result ≤ 1) }
{
    (u8_at(p, i) >> s) % 2
}

// The word of the grey that two planes have at a bit.
fn grey_word(high: &[u8], low: &[u8], i: usize, s: u32) -> u32
    requires { (i + 1 ≤ length high.now) × ((i + 1 ≤ length low.now) × (s < 8)) }
    ensures { result ≡ from_color argb (grey_color (u8_at high.now i / 2 ^ s % 2) (u8_at low.now i / 2 ^ s % 2)) }
{
    let g = (255 - 85 * (2 * bit(high, i, s) + bit(low, i, s))) as u8;
    words::from_color(
        3,
        Color {
            a: 255,
            r: g,
            g: g,
            b: g,
        },
    )
}

// Makes each word of the rows anew, from the place of its byte in a plane, its bit there, and what stood in it.
fn sweep_rows<F: Fn(usize, u32, u32) -> u32>(h: Header, out: &mut [u32], word: F)
    requires room { h.width * h.height ≤ length out.old }
    requires callable { (x y v : _) → x < h.width → y < h.height → v < 2 ^ 32 → F.pre word (y / 8 * h.width + x) (y % 8) v }
    ensures { (f : ℕ → ℕ → ℕ) → Makes (F.post word) h.width h.height f → out.new ≡ swept f 0 (h.width * h.height) out.old }
{
    let w = h.width as usize;
    let rows = h.height as usize;
    for y in 0..rows {
        let base = y / 8 * w;
        let o = y * w;
        let s = (y % 8) as u32;
        for x in 0..w {
            out[o + x] = word(base + x, s, out[o + x]);
        }
    }
}

// Type 2.
fn greys(p: &[u8], h: Header, out: &mut [u32])
    requires { (length p.now ≡ 2 * plane_size h.width h.height) × (h.width * h.height ≤ length out.old) }
    ensures { out.new ≡ swept (painted (color_at (Some Greys) p.now (plane_size h.width h.height) h.width)) 0 (h.width * h.height) out.old }
{
    let (high, low) = p.split_at(p.len() / 2);
    sweep_rows(h, out, |i, s, _| grey_word(high, low, i, s));
}

// Type 8.
fn bytes332(p: &[u8], table: &[u32; 256], n: usize, out: &mut [u32])
    requires { (n ≤ length p.now) × ((n ≤ length out.old) × (table.now ≡ back332)) }
    ensures { out.new ≡ swept (painted (at332 p.now)) 0 n out.old }
{
    for i in 0..n {
        out[i] = words::from_color(3, words::read332(u8_at(p, i), table));
    }
}

// Type 16.
fn words565(p: &[u8], levels5: &[u8; 32], levels6: &[u8; 64], n: usize, out: &mut [u32])
    requires { (2 * n ≤ length p.now) × ((n ≤ length out.old) × ((levels5.now ≡ fives) × (levels6.now ≡ sixes))) }
    ensures { out.new ≡ swept (painted (at565 p.now)) 0 n out.old }
{
    for i in 0..n {
        out[i] = words::from_color(3, words::read565(u16_at(p, 2 * i), levels5, levels6));
    }
}

// The colours of all the pixels, by the type.
fn paint_colors(p: &[u8], h: Header, out: &mut [u32])
    requires { (Fair h) × ((length p.now ≡ pixel_size h) × (h.width * h.height ≤ length out.old)) }
    ensures { out.new ≡ swept (painted (color_at (kind_of h.kind) p.now (plane_size h.width h.height) h.width)) 0 (h.width * h.height) out.old }
{
    let n = h.width as usize * h.height as usize;
    match kind_of(h.kind) {
        Some(Kind::Greys) => greys(p, h, out),
        Some(Kind::Rgb332) => {
            let table = words::colors332();
            bytes332(p, &table, n, out);
        }
        Some(Kind::Rgb565) => {
            let fives = words::levels5();
            let sixes = words::levels6();
            words565(p, &fives, &sixes, n, out);
        }
        None => unreachable!(),
    }
}

// A word under a bit of the mask.
fn veiled_word(m: &[u8], i: usize, s: u32, word: u32) -> u32
    requires { (i + 1 ≤ length m.now) × (s < 8) }
    ensures { result ≡ veiled (u8_at m.now i / 2 ^ s % 2) word }
{
    if bit(m, i, s) == 1 {
        return word % 16777216;
    }
    word
}

// The mask over all the rows.
fn veil_rows(m: &[u8], h: Header, out: &mut [u32])
    requires { (length m.now ≡ plane_size h.width h.height) × (h.width * h.height ≤ length out.old) }
    ensures { out.new ≡ swept (veil m.now h.width) 0 (h.width * h.height) out.old }
{
    sweep_rows(h, out, |i, s, word| veiled_word(m, i, s, word));
}

// The words of a sound file.
pub(crate) fn write_words(file: &[u8], out: &mut [u32])
    requires { (Whole (header_of file.now) (length file.now)) × (pixels file.now ≤ length out.old) }
    ensures { out.new ≡ image file.now ++ drop (pixels file.now) out.old }
{
    let h = crate::header::read_header(file);
    paint_colors(crate::header::pixel_bytes(file, h), h, out);
    if h.mask == 1 {
        veil_rows(crate::header::mask_bytes(file, h), h, out);
    }
}
