// The outlines of round rectangles: straight edges, and the quarters at the corners.
ghost use Rattle.std.specs.Prelude.{◌≡◌, ◌<◌, ◌≤◌, ◌++◌};
ghost use Rattle.words.specs.Ink.{inked};
ghost use Rattle.curves.specs.Corners.{inset_of};
ghost use Rattle.pixels.specs.Bytes.{Sized};
ghost use Rattle.ovals.specs.Faults.{Shaped};
ghost use Rattle.canvas.specs.Plot.{inks};
ghost use Rattle.canvas.specs.Boxes.{edges};
ghost use Rattle.ovals.specs.Strokes.{quarters, round_outline};
ghost use Rattle.ovals.specs.Call.{draw_round_rect};
ghost use Rattle.canvas.specs.Call.{leaves, call};
ghost use Rattle.canvas.specs.Walk.{lowered, work, Keeps, Did};

use crate::faults::shape_fault;
use crate::fills::{corners_of, is_plain};
use crate::strokes::half_in;
use canvas::boxes::{edges_in, outline_in};
use canvas::faults::judge;
use canvas::span::lift;
use canvas::{Clip, Drawn, Tally};
use curves::corners::{Corners, inset};
use pixels::Canvas;
use words::{Color, Ink};

// The plots of a round rectangle's outline with a lifted corner: its edges, and the quarters at its corners.
fn rim_in(
    canvas: Canvas,
    b: &mut [u8],
    p: u64,
    q: u64,
    w: u32,
    h: u32,
    c: Corners,
    ink: Ink,
    clip: Clip,
    t: Tally,
) -> Tally
    requires { (Sized canvas b.old) × ((t.landed ≡ 0) × ((p < 4294967296) × ((q < 4294967296) × ((1 ≤ w) × (1 ≤ h))))) }
    ensures { Did canvas clip (inks (inked ink) (edges canvas (lowered p) (lowered q) w h (inset_of c.rx) (inset_of c.ry) ++ quarters canvas c)) (work b.old t) (work b.new result) }
{
    let rx = inset(c.rx);
    let ry = inset(c.ry);
    let n = edges_in(canvas, b, p, q, w, h, rx, ry, ink, clip, t);
    let m = half_in(canvas, b, c, false, 0.0, 90.0, ink, clip, n);
    half_in(canvas, b, c, true, 180.0, 270.0, ink, clip, m)
}

// The plots of a round rectangle's outline; where an arc size is 0, of a plain one.
fn round_outline_in(
    canvas: Canvas,
    b: &mut [u8],
    x: i32,
    y: i32,
    w: u32,
    h: u32,
    aw: u32,
    ah: u32,
    ink: Ink,
    clip: Clip,
    t: Tally,
) -> Tally
    requires { (Sized canvas b.old) × ((t.landed ≡ 0) × ((Keeps canvas ink) × (Shaped x y w h))) }
    ensures { Did canvas clip (inks (inked ink) (round_outline canvas x y w h aw ah)) (work b.old t) (work b.new result) }
{
    let p = lift(x);
    let q = lift(y);
    if is_plain(w, h, aw, ah) {
        return outline_in(canvas, b, p, q, w, h, ink, clip, t);
    }
    let c = corners_of(x, y, w, h, aw, ah);
    rim_in(canvas, b, p, q, w, h, c, ink, clip, t)
}

// The outline of a round rectangle.
pub fn draw_round_rect(
    canvas: Canvas,
    bytes: &mut [u8],
    x: i32,
    y: i32,
    w: u32,
    h: u32,
    aw: u32,
    ah: u32,
    color: Color,
    clip: Clip,
) -> Drawn
    ensures { leaves result bytes.new ≡ call canvas (draw_round_rect x y w h aw ah color clip) bytes.old }
{
    judge(canvas, bytes.len())?;
    shape_fault(x, y, w, h)?;
    let ink = words::plot_ink(canvas.format, canvas.xor, color);
    let t = Tally { landed: 0 };
    Ok(round_outline_in(canvas, bytes, x, y, w, h, aw, ah, ink, clip, t))
}
