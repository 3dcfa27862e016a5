// Lines: Bresenham's walk between the ends that are left of a segment.
ghost use Rattle.std.specs.Prelude.{◌≡◌, ◌<◌, ◌≤◌, false};
ghost use Rattle.words.specs.Ink.{inked};
ghost use Rattle.pixels.specs.Bytes.{size, Sized};
ghost use Rattle.canvas.specs.Plot.{inks};
ghost use Rattle.canvas.specs.Lines.{bresenham, line};
ghost use Rattle.canvas.specs.Call.{draw_line, leaves, call};
ghost use Rattle.canvas.specs.Walk.{work, dabs, Did, Fields};
ghost use Rattle.canvas.specs.Trail.{way_of, pen_of, toward, across, along, next, ahead, trail, Goes, Steps, Sets};

use crate::faults::judge;
use crate::plot::dab;
use crate::span::{lift, window};
use crate::{Clip, Drawn, Tally};
use pixels::Canvas;
use pixels::rows::Span;
use segments::Segment;
use words::{Color, Ink};

// Where a walk goes, lifted: its second end, how far that is from the first one, and which way.
#[derive(Clone, Copy)]
struct Way {
    x: u64,
    y: u64,
    dx: u64,
    dy: u64,
    right: bool,
    down: bool,
}

// Where it stands, lifted, and err + 2*dy, which is never negative.
#[derive(Clone, Copy)]
struct Pen {
    x: u64,
    y: u64,
    e: u64,
}

fn way_of(s: Segment) -> Way
    ensures { result ≡ way_of s }
{
    let x1 = lift(s.x1);
    let y1 = lift(s.y1);
    let x = lift(s.x2);
    let y = lift(s.y2);
    Way {
        x,
        y,
        dx: x1.abs_diff(x),
        dy: y1.abs_diff(y),
        right: x1 < x,
        down: y1 < y,
    }
}

fn pen_of(s: Segment) -> Pen
    ensures { (result ≡ pen_of s) × (Sets s) }
{
    let x = lift(s.x1);
    let y = lift(s.y1);
    let dx = x.abs_diff(lift(s.x2));
    let dy = y.abs_diff(lift(s.y2));
    Pen { x, y, e: dx + dy }
}

// One step forward, or back.
fn moved(forward: bool, x: u64) -> u64
    requires { (x < 4294967296) × (forward ≡ false → 1 ≤ x) }
    ensures { result ≡ toward forward x }
{
    if forward { x + 1 } else { x - 1 }
}

fn steps_x(w: Way, s: Pen) -> bool
    requires { Steps w s }
    ensures { result ≡ across w s }
{
    3 * w.dy < 2 * s.e
}

fn steps_y(w: Way, s: Pen) -> bool
    requires { Steps w s }
    ensures { result ≡ along w s }
{
    2 * s.e < w.dx + 4 * w.dy
}

// One step of the walk: both tests are of the same err.
fn advance(w: Way, s: Pen) -> Pen
    requires { Steps w s }
    ensures { result ≡ next w s }
{
    let across = steps_x(w, s);
    let along = steps_y(w, s);
    if across {
        let x = moved(w.right, s.x);
        if along {
            let y = moved(w.down, s.y);
            return Pen {
                x,
                y,
                e: s.e + w.dx - w.dy,
            };
        }
        return Pen {
            x,
            y: s.y,
            e: s.e - w.dy,
        };
    }
    let y = moved(w.down, s.y);
    Pen {
        x: s.x,
        y,
        e: s.e + w.dx,
    }
}

// The walk: it plots where it stands, and stops on the second end.
fn walk(
    canvas: Canvas,
    b: &mut [u8],
    xs: Span,
    ys: Span,
    n: usize,
    way: Way,
    from: Pen,
    ink: Ink,
    t0: Tally,
) -> Tally
    requires { (Sized canvas b.old) × ((Fields canvas xs ys) × ((n ≡ size canvas) × ((Goes way from) × (t0.landed < 9223372036854775808)))) }
    ensures { work b.new result ≡ dabs canvas xs ys (inked ink) (trail way (ahead way from) from) (work b.old t0) }
{
    let mut t = t0;
    let mut s = from;
    loop {
        t = dab(canvas, b, xs, ys, n, s.x, s.y, ink, t);
        if s.x == way.x && s.y == way.y {
            break;
        }
        s = advance(way, s);
    }
    t
}

// The plots between two ends.
fn segment_in(canvas: Canvas, b: &mut [u8], s: Segment, ink: Ink, clip: Clip, t: Tally) -> Tally
    requires { (Sized canvas b.old) × (t.landed < 9223372036854775808) }
    ensures { Did canvas clip (inks (inked ink) (bresenham s)) (work b.old t) (work b.new result) }
{
    let way = way_of(s);
    let from = pen_of(s);
    let xs = window(clip.x, clip.width, canvas.width);
    let ys = window(clip.y, clip.height, canvas.height);
    match canvas.format {
        0 => walk(canvas, b, xs, ys, 1, way, from, ink, t),
        1 => walk(canvas, b, xs, ys, 2, way, from, ink, t),
        _ => walk(canvas, b, xs, ys, 4, way, from, ink, t),
    }
}

// The plots of a line.
pub(crate) fn line_in(
    canvas: Canvas,
    b: &mut [u8],
    x1: i32,
    y1: i32,
    x2: i32,
    y2: i32,
    ink: Ink,
    clip: Clip,
    t: Tally,
) -> Tally
    requires { (Sized canvas b.old) × (t.landed < 9223372036854775808) }
    ensures { Did canvas clip (inks (inked ink) (line canvas x1 y1 x2 y2)) (work b.old t) (work b.new result) }
{
    match segments::clip_segment(x1, y1, x2, y2, canvas.width, canvas.height) {
        None => t,
        Some(s) => segment_in(canvas, b, s, ink, clip, t),
    }
}

pub fn draw_line(
    canvas: Canvas,
    bytes: &mut [u8],
    x1: i32,
    y1: i32,
    x2: i32,
    y2: i32,
    color: Color,
    clip: Clip,
) -> Drawn
    ensures { leaves result bytes.new ≡ call canvas (draw_line x1 y1 x2 y2 color clip) bytes.old }
{
    judge(canvas, bytes.len())?;
    let ink = words::plot_ink(canvas.format, canvas.xor, color);
    Ok(line_in(
        canvas,
        bytes,
        x1,
        y1,
        x2,
        y2,
        ink,
        clip,
        Tally { landed: 0 },
    ))
}
