// Filled pies and round rectangles.
ghost use Rattle.std.specs.Prelude.{◌≡◌, ◌-◌, ◌≤◌, ◌||◌, pos, ◌+ℤ◌, ◌==◌};
ghost use Rattle.words.specs.Ink.{inked};
ghost use Rattle.curves.specs.Corners.{radius_of, corners_of};
ghost use Rattle.ovals.specs.Faults.{Shaped};
ghost use Rattle.canvas.specs.Plot.{inks};
ghost use Rattle.ovals.specs.Curves.{pie, round_fill};
ghost use Rattle.ovals.specs.Call.{fill_arc, fill_round_rect};
ghost use Rattle.canvas.specs.Call.{leaves, call};
ghost use Rattle.canvas.specs.Walk.{work, Ready, Did};

use crate::faults::{arc_fault, shape_fault};
use crate::runs::{arcs_in, sector_in};
use canvas::boxes::{fill_in, is_empty};
use canvas::faults::judge;
use canvas::span::lift;
use canvas::{Clip, Drawn, Tally};
use curves::corners::Corners;
use pixels::Canvas;
use words::{Color, Ink};

// The plots of a filled pie. A box without columns or rows has none.
fn pie_in(
    canvas: Canvas,
    b: &mut [u8],
    x: i32,
    y: i32,
    w: u32,
    h: u32,
    start: i32,
    arc: i32,
    ink: Ink,
    clip: Clip,
    t: Tally,
) -> Tally
    requires { (Ready canvas clip (inks (inked ink) (pie canvas x y w h start arc)) (work b.old t)) × (Shaped x y w h) }
    ensures { Did canvas clip (inks (inked ink) (pie canvas x y w h start arc)) (work b.old t) (work b.new result) }
{
    if is_empty(w, h) {
        return t;
    }
    let k = curves::pies::pie_in(x, y, w, h, start, arc);
    let p = lift(x);
    let q = lift(y);
    sector_in(canvas, b, k, p, q, w, h, ink, clip, t)
}

// A filled pie.
pub fn fill_arc(
    canvas: Canvas,
    bytes: &mut [u8],
    x: i32,
    y: i32,
    w: u32,
    h: u32,
    start: i32,
    arc: i32,
    color: Color,
    clip: Clip,
) -> Drawn
    ensures { leaves result bytes.new ≡ call canvas (fill_arc x y w h start arc color clip) bytes.old }
{
    judge(canvas, bytes.len())?;
    arc_fault(x, y, w, h, start, arc)?;
    let ink = words::plot_ink(canvas.format, canvas.xor, color);
    let t = Tally { landed: 0 };
    Ok(pie_in(canvas, bytes, x, y, w, h, start, arc, ink, clip, t))
}

// The corners of a box with these arc sizes.
pub(crate) fn corners_of(x: i32, y: i32, w: u32, h: u32, aw: u32, ah: u32) -> Corners
    requires { (Shaped x y w h) × ((1 ≤ w) × (1 ≤ h)) }
    ensures { result ≡ corners_of x y (x +ℤ pos (w - 1)) (y +ℤ pos (h - 1)) (radius_of aw w) (radius_of ah h) }
{
    let right = x + (w - 1) as i32;
    let bottom = y + (h - 1) as i32;
    let rx = curves::corners::radius(aw, w);
    let ry = curves::corners::radius(ah, h);
    curves::corners::corners_in(x, y, right, bottom, rx, ry)
}

// Whether a round rectangle is drawn as a plain one: a side or an arc size is 0.
pub(crate) fn is_plain(w: u32, h: u32, aw: u32, ah: u32) -> bool
    ensures { result ≡ ((w == 0 || h == 0) || (aw == 0 || ah == 0)) }
{
    is_empty(w, h) || is_empty(aw, ah)
}

// The plots of a filled round rectangle; where an arc size is 0, of a plain one.
fn round_in(
    canvas: Canvas,
    b: &mut [u8],
    x: i32,
    y: i32,
    w: u32,
    h: u32,
    aw: u32,
    ah: u32,
    ink: Ink,
    clip: Clip,
    t: Tally,
) -> Tally
    requires { (Ready canvas clip (inks (inked ink) (round_fill canvas x y w h aw ah)) (work b.old t)) × (Shaped x y w h) }
    ensures { Did canvas clip (inks (inked ink) (round_fill canvas x y w h aw ah)) (work b.old t) (work b.new result) }
{
    let p = lift(x);
    let q = lift(y);
    if is_plain(w, h, aw, ah) {
        return fill_in(canvas, b, p, q, w, h, ink, clip, t);
    }
    arcs_in(canvas, b, p, q, w, h, aw, ah, ink, clip, t)
}

// A filled round rectangle.
pub fn fill_round_rect(
    canvas: Canvas,
    bytes: &mut [u8],
    x: i32,
    y: i32,
    w: u32,
    h: u32,
    aw: u32,
    ah: u32,
    color: Color,
    clip: Clip,
) -> Drawn
    ensures { leaves result bytes.new ≡ call canvas (fill_round_rect x y w h aw ah color clip) bytes.old }
{
    judge(canvas, bytes.len())?;
    shape_fault(x, y, w, h)?;
    let ink = words::plot_ink(canvas.format, canvas.xor, color);
    let t = Tally { landed: 0 };
    Ok(round_in(canvas, bytes, x, y, w, h, aw, ah, ink, clip, t))
}
