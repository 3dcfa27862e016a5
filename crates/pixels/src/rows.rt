// Rows and boxes of pixels, each inked: one loop for each word size.
ghost use Rattle.std.specs.Prelude.{◌≡◌, ◌-◌, ◌≤◌, ◌<◌};
ghost use Rattle.words.specs.Ink.{inked};
ghost use Rattle.pixels.specs.Bytes.{size, Sized};
ghost use Rattle.pixels.specs.Hits.{paint};
ghost use Rattle.pixels.specs.Rows.{run, flat, marks, field};

use crate::Canvas;
use crate::bytes::{index, touch};
use words::Ink;

// Columns or rows of the canvas, from one up to but not including another.
#[derive(Clone, Copy)]
pub struct Span {
    pub from: usize,
    pub to: usize,
}

fn row_by<const N: usize>(canvas: Canvas, b: &mut [u8], y: usize, x0: usize, x1: usize, ink: Ink)
    requires { (Sized canvas b.old) × ((x1 ≤ canvas.width) × ((y < canvas.height) × (size canvas ≡ N))) }
    ensures { b.new ≡ paint canvas (marks (flat (inked ink)) (run x0 (x1 - x0)) y) b.old }
{
    for x in x0..x1 {
        touch::<N>(b, index(canvas, x, y) * N, ink);
    }
}

// A part of a row.
pub fn ink_row(canvas: Canvas, b: &mut [u8], y: usize, x0: usize, x1: usize, ink: Ink)
    requires { (Sized canvas b.old) × ((x1 ≤ canvas.width) × (y < canvas.height)) }
    ensures { b.new ≡ paint canvas (marks (flat (inked ink)) (run x0 (x1 - x0)) y) b.old }
{
    match canvas.format {
        0 => row_by::<1>(canvas, b, y, x0, x1, ink),
        1 => row_by::<2>(canvas, b, y, x0, x1, ink),
        _ => row_by::<4>(canvas, b, y, x0, x1, ink),
    }
}

// A box, row by row.
pub fn ink_box(canvas: Canvas, b: &mut [u8], xs: Span, ys: Span, ink: Ink)
    requires { (Sized canvas b.old) × ((xs.to ≤ canvas.width) × (ys.to ≤ canvas.height)) }
    ensures { b.new ≡ paint canvas (field (flat (inked ink)) (run xs.from (xs.to - xs.from)) (run ys.from (ys.to - ys.from))) b.old }
{
    for y in ys.from..ys.to {
        ink_row(canvas, b, y, xs.from, xs.to, ink);
    }
}
