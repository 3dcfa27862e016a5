// Plots: the landing of a point, and the call of one plot.
ghost use Rattle.std.specs.Prelude.{◌≡◌, ◌≤◌, [], ◌∷◌};
ghost use Rattle.words.specs.Ink.{inked};
ghost use Rattle.canvas.specs.Plot.{at, plot, on_canvas};
ghost use Rattle.canvas.specs.Call.{put_pixel, leaves, call};
ghost use Rattle.pixels.specs.Bytes.{size, Sized};
ghost use Rattle.canvas.specs.Walk.{lowered, plus, work, covers, dabbed, Fields, Fits, Ready, Did};

use crate::faults::judge;
use crate::span::{ORIGIN, lift, on_side};
use crate::{Clip, Drawn, Tally};
use pixels::Canvas;
use pixels::rows::Span;
use words::{Color, Ink};

// The tally with n more that landed.
pub(crate) fn landed_more(t: Tally, n: u64) -> Tally
    requires { Fits (plus t n) }
    ensures { result ≡ plus t n }
{
    let landed = t.landed + n;
    Tally { landed }
}

// Whether a lifted number is one of a span.
fn is_covered(s: Span, p: u64) -> bool
    requires { (s.from ≤ s.to) × (s.to ≤ 32767) }
    ensures { result ≡ covers s (lowered p) }
{
    let past = p.wrapping_sub(ORIGIN + s.from as u64);
    past < (s.to - s.from) as u64
}

// A plot at a lifted point that can land on some columns and rows alone. The bytes of a word, n, are a literal in each
// caller, and the choice by them falls away where the compiler takes the caller's loop into its arms.
pub fn dab(
    canvas: Canvas,
    b: &mut [u8],
    xs: Span,
    ys: Span,
    n: usize,
    p: u64,
    q: u64,
    ink: Ink,
    t: Tally,
) -> Tally
    requires { (Sized canvas b.old) × ((Fields canvas xs ys) × ((n ≡ size canvas) × (Fits (plus t 1)))) }
    ensures { work b.new result ≡ dabbed canvas xs ys (inked ink) (at (lowered p) (lowered q)) (work b.old t) }
{
    if !is_covered(xs, p) {
        return t;
    }
    if !is_covered(ys, q) {
        return t;
    }
    let x = (p - ORIGIN) as usize;
    let y = (q - ORIGIN) as usize;
    pixels::bytes::touch_by(canvas, b, n, x, y, ink);
    landed_more(t, 1)
}

// Whether a lifted point is on the canvas.
pub(crate) fn on_canvas(canvas: Canvas, p: u64, q: u64) -> bool
    ensures { result ≡ on_canvas canvas (lowered p) (lowered q) }
{
    on_side(p, canvas.width) && on_side(q, canvas.height)
}

// A plot at a lifted point.
pub(crate) fn plot_at(
    canvas: Canvas,
    b: &mut [u8],
    p: u64,
    q: u64,
    ink: Ink,
    clip: Clip,
    t: Tally,
) -> Tally
    requires { Ready canvas clip (plot (inked ink) (lowered p) (lowered q) ∷ []) (work b.old t) }
    ensures { Did canvas clip (plot (inked ink) (lowered p) (lowered q) ∷ []) (work b.old t) (work b.new result) }
{
    if !on_canvas(canvas, p, q) {
        return t;
    }
    let x = (p - ORIGIN) as usize;
    let y = (q - ORIGIN) as usize;
    if !crate::span::in_clip(clip, x, y) {
        return t;
    }
    pixels::bytes::touch_at(canvas, b, x, y, ink);
    landed_more(t, 1)
}

// One plot, anywhere.
pub fn put_pixel(
    canvas: Canvas,
    bytes: &mut [u8],
    x: i32,
    y: i32,
    color: Color,
    clip: Clip,
) -> Drawn
    ensures { leaves result bytes.new ≡ call canvas (put_pixel x y color clip) bytes.old }
{
    judge(canvas, bytes.len())?;
    let ink = words::plot_ink(canvas.format, canvas.xor, color);
    let p = lift(x);
    let q = lift(y);
    let t = plot_at(canvas, bytes, p, q, ink, clip, Tally { landed: 0 });
    Ok(t)
}
