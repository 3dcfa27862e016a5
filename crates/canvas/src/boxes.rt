// Boxes: fills and outlines. Only what lies on the canvas and inside the clip is walked.
ghost use Rattle.std.specs.Prelude.{◌≡◌, ◌-◌, ◌*◌, ◌<◌, ◌≤◌, ◌||◌, ◌++◌, ◌==◌};
ghost use Rattle.words.specs.Ink.{inked};
ghost use Rattle.canvas.specs.Plot.{inks};
ghost use Rattle.canvas.specs.Boxes.{fill, outline};
ghost use Rattle.canvas.specs.Boxes.{edges};
ghost use Rattle.canvas.specs.Call.{draw_rect, fill_rect, leaves, call};
ghost use Rattle.canvas.specs.Walk.{lowered, work, Keeps, Ready, Did};

use crate::faults::judge;
use crate::plot::landed_more;
use crate::span::{lift, overlap};
use crate::{Clip, Drawn, Tally};
use pixels::Canvas;
use pixels::rows::ink_box;
use words::{Color, Ink};

// Whether a box of these sides has no pixels.
pub fn is_empty(w: u32, h: u32) -> bool
    ensures { result ≡ (w == 0 || h == 0) }
{
    w == 0 || h == 0
}

// The plots of a filled box with a lifted corner.
pub fn fill_in(
    canvas: Canvas,
    b: &mut [u8],
    p: u64,
    q: u64,
    w: u32,
    h: u32,
    ink: Ink,
    clip: Clip,
    t: Tally,
) -> Tally
    requires { (Ready canvas clip (inks (inked ink) (fill canvas (lowered p) (lowered q) w h)) (work b.old t)) × ((p < 17179869184) × (q < 17179869184)) }
    ensures { Did canvas clip (inks (inked ink) (fill canvas (lowered p) (lowered q) w h)) (work b.old t) (work b.new result) }
{
    let xs = overlap(p, w, clip.x, clip.width, canvas.width);
    let ys = overlap(q, h, clip.y, clip.height, canvas.height);
    let n = (ys.to - ys.from) * (xs.to - xs.from);
    ink_box(canvas, b, xs, ys, ink);
    landed_more(t, n as u64)
}

// A filled box.
pub fn fill_rect(
    canvas: Canvas,
    bytes: &mut [u8],
    x: i32,
    y: i32,
    w: u32,
    h: u32,
    color: Color,
    clip: Clip,
) -> Drawn
    ensures { leaves result bytes.new ≡ call canvas (fill_rect x y w h color clip) bytes.old }
{
    judge(canvas, bytes.len())?;
    let ink = words::plot_ink(canvas.format, canvas.xor, color);
    let p = lift(x);
    let q = lift(y);
    let t = fill_in(canvas, bytes, p, q, w, h, ink, clip, Tally { landed: 0 });
    Ok(t)
}

// How long an edge is between two corners.
fn between(side: u32, inset: u32) -> u32
    ensures { result ≡ side - 2 * inset }
{
    side.saturating_sub(inset).saturating_sub(inset)
}

// The plots of two filled boxes of one size, with lifted corners.
fn pair_in(
    canvas: Canvas,
    b: &mut [u8],
    p: u64,
    q: u64,
    u: u64,
    v: u64,
    w: u32,
    h: u32,
    ink: Ink,
    clip: Clip,
    t: Tally,
) -> Tally
    requires { (Ready canvas clip (inks (inked ink) (fill canvas (lowered p) (lowered q) w h ++ fill canvas (lowered u) (lowered v) w h)) (work b.old t)) × ((p < 17179869184) × ((q < 17179869184) × ((u < 17179869184) × (v < 17179869184)))) }
    ensures { Did canvas clip (inks (inked ink) (fill canvas (lowered p) (lowered q) w h ++ fill canvas (lowered u) (lowered v) w h)) (work b.old t) (work b.new result) }
{
    let n = fill_in(canvas, b, p, q, w, h, ink, clip, t);
    fill_in(canvas, b, u, v, w, h, ink, clip, n)
}

// The plots of the straight edges of a box with a lifted corner, which are this far in from its corners.
pub fn edges_in(
    canvas: Canvas,
    b: &mut [u8],
    p: u64,
    q: u64,
    w: u32,
    h: u32,
    rx: u32,
    ry: u32,
    ink: Ink,
    clip: Clip,
    t: Tally,
) -> Tally
    requires { (Ready canvas clip (inks (inked ink) (edges canvas (lowered p) (lowered q) w h rx ry)) (work b.old t)) × ((p < 4294967296) × ((q < 4294967296) × ((1 ≤ w) × (1 ≤ h)))) }
    ensures { Did canvas clip (inks (inked ink) (edges canvas (lowered p) (lowered q) w h rx ry)) (work b.old t) (work b.new result) }
{
    let x = p + rx as u64;
    let y = q + ry as u64;
    let right = p + (w - 1) as u64;
    let bottom = q + (h - 1) as u64;
    let across = between(w, rx);
    let along = between(h, ry);
    let n = pair_in(canvas, b, x, q, x, bottom, across, 1, ink, clip, t);
    pair_in(canvas, b, p, y, right, y, 1, along, ink, clip, n)
}

// The plots of an outline with a lifted corner: of a box of one column or row the fill, of a larger one the edges, with the
// corners in the rows.
pub fn outline_in(
    canvas: Canvas,
    b: &mut [u8],
    p: u64,
    q: u64,
    w: u32,
    h: u32,
    ink: Ink,
    clip: Clip,
    t: Tally,
) -> Tally
    requires { (Ready canvas clip (inks (inked ink) (outline canvas (lowered p) (lowered q) w h)) (work b.old t)) × ((p < 4294967296) × ((q < 4294967296) × (Keeps canvas ink))) }
    ensures { Did canvas clip (inks (inked ink) (outline canvas (lowered p) (lowered q) w h)) (work b.old t) (work b.new result) }
{
    if is_empty(w / 2, h / 2) {
        return fill_in(canvas, b, p, q, w, h, ink, clip, t);
    }
    edges_in(canvas, b, p, q, w, h, 0, 1, ink, clip, t)
}

// The outline of a box.
pub fn draw_rect(
    canvas: Canvas,
    bytes: &mut [u8],
    x: i32,
    y: i32,
    w: u32,
    h: u32,
    color: Color,
    clip: Clip,
) -> Drawn
    ensures { leaves result bytes.new ≡ call canvas (draw_rect x y w h color clip) bytes.old }
{
    judge(canvas, bytes.len())?;
    let ink = words::plot_ink(canvas.format, canvas.xor, color);
    let p = lift(x);
    let q = lift(y);
    let t = outline_in(canvas, bytes, p, q, w, h, ink, clip, Tally { landed: 0 });
    Ok(t)
}
