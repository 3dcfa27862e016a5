// Strokes: arcs, and the quarters of a round rectangle's corners.
ghost use Rattle.std.specs.Prelude.{◌≡◌, suc, ◌<◌, ◌≤◌, min};
ghost use Rattle.floats.specs.Degrees.{radians_of};
ghost use Rattle.words.specs.Ink.{inked};
ghost use Rattle.pixels.specs.Bytes.{size, Sized};
ghost use Rattle.canvas.specs.Plot.{inks};
ghost use Rattle.ovals.specs.Strokes.{stroke_from, stroke, arc};
ghost use Rattle.ovals.specs.Sift.{spots_at};
ghost use Rattle.ovals.specs.Call.{draw_arc};
ghost use Rattle.canvas.specs.Call.{leaves, call};
ghost use Rattle.canvas.specs.Walk.{plus, work, dabs, Fits, Did, Fields};
ghost use Rattle.ovals.specs.Sift.{half};

use crate::faults::arc_fault;
use canvas::boxes::is_empty;
use canvas::faults::judge;
use canvas::plot::dab;
use canvas::span::window;
use canvas::{Clip, Drawn, Tally};
use curves::corners::{Corners, corner};
use curves::oval::Oval;
use pixels::Canvas;
use pixels::rows::Span;
use words::{Color, Ink};

// The plots of m points, whose columns and rows are given, lifted.
fn dab_spots(
    canvas: Canvas,
    b: &mut [u8],
    xs: Span,
    ys: Span,
    n: usize,
    ps: &[u32; 16],
    qs: &[u32; 16],
    m: usize,
    ink: Ink,
    t0: Tally,
) -> Tally
    requires sized { Sized canvas b.old }
    requires fields { Fields canvas xs ys }
    requires pixel { n ≡ size canvas }
    requires few { m ≤ 16 }
    requires fits { Fits (plus t0 m) }
    ensures { work b.new result ≡ dabs canvas xs ys (inked ink) (spots_at ps.now qs.now 0 m) (work b.old t0) }
{
    let mut t = t0;
    for j in 0..m {
        let p = u64::from(ps[j]);
        let q = u64::from(qs[j]);
        t = dab(canvas, b, xs, ys, n, p, q, ink, t);
    }
    t
}

fn up_to_16(n: u32) -> u32
    ensures { result ≡ min n 16 }
{
    if n < 16 {
        return n;
    }
    16
}

// The plots of a stroke of so many steps, the first and the last included, 16 at a time.
fn stroke_steps(
    canvas: Canvas,
    b: &mut [u8],
    xs: Span,
    ys: Span,
    n: usize,
    o: Oval,
    start: f32,
    sweep: f32,
    steps: u32,
    ink: Ink,
    t0: Tally,
) -> Tally
    requires { (Sized canvas b.old) × ((Fields canvas xs ys) × ((n ≡ size canvas) × ((steps ≤ 1048544) × (t0.landed < 9223372036854775808)))) }
    ensures { work b.new result ≡ dabs canvas xs ys (inked ink) (stroke_from o start sweep steps 0 (suc steps)) (work b.old t0) }
{
    let mut ps = [0u32; 16];
    let mut qs = [0u32; 16];
    let mut t = t0;
    let mut i = 0u32;
    while i <= steps {
        curves::strokes::spots_from(o, start, sweep, i, steps, &mut ps, &mut qs);
        let m = up_to_16(steps + 1 - i);
        t = dab_spots(canvas, b, xs, ys, n, &ps, &qs, m as usize, ink, t);
        i += m;
    }
    t
}

// The plots of a stroke; start and sweep are in radians.
pub(crate) fn stroke_in(
    canvas: Canvas,
    b: &mut [u8],
    o: Oval,
    start: f32,
    sweep: f32,
    ink: Ink,
    clip: Clip,
    t: Tally,
) -> Tally
    requires { (Sized canvas b.old) × (t.landed < 9223372036854775808) }
    ensures { Did canvas clip (inks (inked ink) (stroke canvas o start sweep)) (work b.old t) (work b.new result) }
{
    let xs = window(clip.x, clip.width, canvas.width);
    let ys = window(clip.y, clip.height, canvas.height);
    let steps = curves::strokes::steps(o, sweep, canvas.width, canvas.height) as u32;
    let f = canvas.format;
    match f {
        0 => stroke_steps(canvas, b, xs, ys, 1, o, start, sweep, steps, ink, t),
        1 => stroke_steps(canvas, b, xs, ys, 2, o, start, sweep, steps, ink, t),
        _ => stroke_steps(canvas, b, xs, ys, 4, o, start, sweep, steps, ink, t),
    }
}

// The plots of an arc, whose angles are in degrees.
fn arc_in(
    canvas: Canvas,
    b: &mut [u8],
    x: i32,
    y: i32,
    w: u32,
    h: u32,
    start: i32,
    sweep: i32,
    ink: Ink,
    clip: Clip,
    t: Tally,
) -> Tally
    requires { (Sized canvas b.old) × (t.landed < 9223372036854775808) }
    ensures { Did canvas clip (inks (inked ink) (arc canvas x y w h start sweep)) (work b.old t) (work b.new result) }
{
    if is_empty(w, h) {
        return t;
    }
    let o = curves::oval::oval_in(x, y, w, h);
    let from = floats::radians(std::num::nearest_i32_to_f32(start));
    let turn = floats::radians(std::num::nearest_i32_to_f32(sweep));
    stroke_in(canvas, b, o, from, turn, ink, clip, t)
}

// An arc.
pub fn draw_arc(
    canvas: Canvas,
    bytes: &mut [u8],
    x: i32,
    y: i32,
    w: u32,
    h: u32,
    start: i32,
    arc: i32,
    color: Color,
    clip: Clip,
) -> Drawn
    ensures { leaves result bytes.new ≡ call canvas (draw_arc x y w h start arc color clip) bytes.old }
{
    judge(canvas, bytes.len())?;
    arc_fault(x, y, w, h, start, arc)?;
    let ink = words::plot_ink(canvas.format, canvas.xor, color);
    let t = Tally { landed: 0 };
    Ok(arc_in(canvas, bytes, x, y, w, h, start, arc, ink, clip, t))
}

// The plots of the two upper quarters at the corners of a round rectangle, or of the two lower ones, each from its angle in
// degrees.
pub(crate) fn half_in(
    canvas: Canvas,
    b: &mut [u8],
    c: Corners,
    low: bool,
    first: f32,
    second: f32,
    ink: Ink,
    clip: Clip,
    t: Tally,
) -> Tally
    requires { (Sized canvas b.old) × (t.landed < 4611686018427387904) }
    ensures { Did canvas clip (inks (inked ink) (half canvas c low (radians_of first) (radians_of second))) (work b.old t) (work b.new result) }
{
    let quarter = floats::radians(90.0);
    let from = floats::radians(first);
    let then = floats::radians(second);
    let o = corner(c, !low, low);
    let u = corner(c, low, low);
    let n = stroke_in(canvas, b, o, from, quarter, ink, clip, t);
    stroke_in(canvas, b, u, then, quarter, ink, clip, n)
}
