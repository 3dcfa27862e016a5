// How a canvas's bytes hold the words of its pixels.
ghost use Rattle.std.specs.Prelude.{◌≡◌, ◌+◌, ◌*◌, ◌^◌, ◌≤◌, ◌<◌, eqb, length};
ghost use Rattle.words.specs.Format.{range};
ghost use Rattle.words.specs.Ink.{inked};
ghost use Rattle.pixels.specs.Bytes.{load, store, cells, form, size, pitch, folded, load_at, On, Bounded, Sized};
ghost use Rattle.pixels.specs.Hits.{hit, touch};
ghost use Rattle.pixels.specs.Rows.{Touched};

use crate::Canvas;
use words::Ink;

// The word of N bytes at an offset, the low byte first.
pub(crate) fn word<const N: usize>(b: &[u8], o: usize) -> u32
    requires room { o + N ≤ length b.now }
    requires fits { N ≤ 4 }
    ensures { (result ≡ load (cells N o) b.now) × (result < 256 ^ N) }
{
    let mut bytes = [0; 4];
    bytes[..N].copy_from_slice(&b[o..o + N]);
    u32::from_le_bytes(bytes)
}

pub(crate) fn put<const N: usize>(b: &mut [u8], o: usize, w: u32)
    requires room { o + N ≤ length b.old }
    requires fits { N ≤ 4 }
    ensures { b.new ≡ store (cells N o) b.old w }
{
    let bytes = w.to_le_bytes();
    b[o..o + N].copy_from_slice(&bytes[..N]);
}

// The word at an offset, inked.
pub(crate) fn touch<const N: usize>(b: &mut [u8], o: usize, ink: Ink)
    requires room { o + N ≤ length b.old }
    requires fits { N ≤ 4 }
    ensures { Touched N o (inked ink) b.old b.new }
{
    put::<N>(b, o, ink.on(word::<N>(b, o)));
}

// The bytes of a canvas, those of a row in a word of 32 bits: of a row that is accepted these are all.
fn extent_of(canvas: Canvas) -> usize
    ensures { result ≡ folded canvas }
{
    let side = words::bytes_per_pixel(canvas.format) * canvas.row as usize % 4294967296;
    side * canvas.height as usize
}

// Whether so many bytes are those of a canvas.
pub fn is_whole(canvas: Canvas, len: usize) -> bool
    ensures { result ≡ eqb len (folded canvas) }
{
    len == extent_of(canvas)
}

// A pixel's number in the rows.
pub(crate) fn index(canvas: Canvas, x: usize, y: usize) -> usize
    requires { (On canvas x y) × (Bounded canvas) }
    ensures { (result ≡ y * pitch canvas + x) × (result ≤ 1073676289) }
{
    let w = canvas.row as usize;
    y * w + x
}

// Where a pixel's bytes start.
fn offset(canvas: Canvas, x: usize, y: usize) -> usize
    requires { (On canvas x y) × (Bounded canvas) }
    ensures { result ≡ (y * pitch canvas + x) * size canvas }
{
    index(canvas, x, y) * words::bytes_per_pixel(canvas.format)
}

// The word of a pixel.
pub fn load_at(canvas: Canvas, b: &[u8], x: usize, y: usize) -> u32
    requires { (Sized canvas b.now) × (On canvas x y) }
    ensures { (result ≡ load_at canvas b.now x y) × (result < range (form canvas)) }
{
    let o = offset(canvas, x, y);
    match canvas.format {
        0 => word::<1>(b, o),
        1 => word::<2>(b, o),
        _ => word::<4>(b, o),
    }
}

// The word of a pixel, inked, by the bytes of a word.
pub fn touch_by(canvas: Canvas, b: &mut [u8], n: usize, x: usize, y: usize, ink: Ink)
    requires { (Sized canvas b.old) × ((On canvas x y) × (n ≡ size canvas)) }
    ensures { b.new ≡ touch canvas b.old (hit (inked ink) x y) }
{
    let o = index(canvas, x, y);
    match n {
        1 => touch::<1>(b, o, ink),
        2 => touch::<2>(b, o * 2, ink),
        _ => touch::<4>(b, o * 4, ink),
    }
}

// The word of a pixel, inked.
pub fn touch_at(canvas: Canvas, b: &mut [u8], x: usize, y: usize, ink: Ink)
    requires { (Sized canvas b.old) × (On canvas x y) }
    ensures { b.new ≡ touch canvas b.old (hit (inked ink) x y) }
{
    match canvas.format {
        0 => touch_by(canvas, b, 1, x, y, ink),
        1 => touch_by(canvas, b, 2, x, y, ink),
        _ => touch_by(canvas, b, 4, x, y, ink),
    }
}
