// Chunks: the words of a part of a row in a slice of u32, one loop for each word size.
ghost use Rattle.std.specs.Prelude.{◌≡◌, ◌+◌, ◌≤◌, ◌<◌, length};
ghost use Rattle.pixels.specs.Bytes.{size, Sized};
ghost use Rattle.pixels.specs.Hits.{paint};
ghost use Rattle.pixels.specs.Rows.{run, marks, laid, words_of};

use crate::Canvas;
use crate::bytes::{index, put, word};

fn take_by<const N: usize>(canvas: Canvas, b: &[u8], y: usize, x: usize, ws: &mut [u32])
    requires { (Sized canvas b.now) × ((x + length ws.old ≤ canvas.width) × ((y < canvas.height) × (size canvas ≡ N))) }
    ensures { ws.new ≡ words_of canvas b.now y x (length ws.old) }
{
    for (i, w) in ws.iter_mut().enumerate() {
        *w = word::<N>(b, index(canvas, x + i, y) * N);
    }
}

// The words of as many pixels of row y as the slice holds, from x on.
pub fn take(canvas: Canvas, b: &[u8], y: usize, x: usize, ws: &mut [u32])
    requires { (Sized canvas b.now) × ((x + length ws.old ≤ canvas.width) × (y < canvas.height)) }
    ensures { ws.new ≡ words_of canvas b.now y x (length ws.old) }
{
    match canvas.format {
        0 => take_by::<1>(canvas, b, y, x, ws),
        1 => take_by::<2>(canvas, b, y, x, ws),
        _ => take_by::<4>(canvas, b, y, x, ws),
    }
}

fn lay_by<const N: usize>(canvas: Canvas, b: &mut [u8], y: usize, x: usize, ws: &[u32])
    requires { (Sized canvas b.old) × ((x + length ws.now ≤ canvas.width) × ((y < canvas.height) × (size canvas ≡ N))) }
    ensures { b.new ≡ paint canvas (marks (laid ws.now x) (run x (length ws.now)) y) b.old }
{
    for (i, w) in ws.iter().enumerate() {
        put::<N>(b, index(canvas, x + i, y) * N, *w);
    }
}

// The slice's words, put at the pixels of row y from x on.
pub fn lay(canvas: Canvas, b: &mut [u8], y: usize, x: usize, ws: &[u32])
    requires { (Sized canvas b.old) × ((x + length ws.now ≤ canvas.width) × (y < canvas.height)) }
    ensures { b.new ≡ paint canvas (marks (laid ws.now x) (run x (length ws.now)) y) b.old }
{
    match canvas.format {
        0 => lay_by::<1>(canvas, b, y, x, ws),
        1 => lay_by::<2>(canvas, b, y, x, ws),
        _ => lay_by::<4>(canvas, b, y, x, ws),
    }
}
