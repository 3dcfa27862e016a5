// Arcs, pies and round rectangles for C and Rust.
ghost use Rattle.std.specs.Prelude.{◌≡◌};
ghost use Rattle.ovals.specs.Call.{draw_arc, fill_arc, draw_round_rect, fill_round_rect};
ghost use Rattle.canvas.specs.Call.{call};
ghost use Rattle.tuyrashka.specs.Exported.{canvas_of, clip_of, color_of, gives};

use crate::records::{canvas_of, clip_of, color_of, give_drawn};

pub fn tuyrashka_draw_arc(
    canvas: &[u32; 6],
    bytes: &mut [u8],
    x: i32,
    y: i32,
    w: u32,
    h: u32,
    start_angle: i32,
    arc_angle: i32,
    argb: u32,
    clip: &[u32; 4],
    drawn: &mut [u64; 1],
) -> u32
    ensures { (result, (drawn.new, bytes.new))
        ≡ gives (call (canvas_of canvas.now) (draw_arc x y w h start_angle arc_angle (color_of argb) (clip_of clip.now)) bytes.old) }
{
    let v = canvas_of(canvas);
    let c = clip_of(clip);
    let k = color_of(argb);
    let d = ovals::draw_arc(v, bytes, x, y, w, h, start_angle, arc_angle, k, c);
    give_drawn(d, drawn)
}

pub fn tuyrashka_fill_arc(
    canvas: &[u32; 6],
    bytes: &mut [u8],
    x: i32,
    y: i32,
    w: u32,
    h: u32,
    start_angle: i32,
    arc_angle: i32,
    argb: u32,
    clip: &[u32; 4],
    drawn: &mut [u64; 1],
) -> u32
    ensures { (result, (drawn.new, bytes.new))
        ≡ gives (call (canvas_of canvas.now) (fill_arc x y w h start_angle arc_angle (color_of argb) (clip_of clip.now)) bytes.old) }
{
    let v = canvas_of(canvas);
    let c = clip_of(clip);
    let k = color_of(argb);
    let d = ovals::fill_arc(v, bytes, x, y, w, h, start_angle, arc_angle, k, c);
    give_drawn(d, drawn)
}

pub fn tuyrashka_draw_round_rect(
    canvas: &[u32; 6],
    bytes: &mut [u8],
    x: i32,
    y: i32,
    w: u32,
    h: u32,
    arc_w: u32,
    arc_h: u32,
    argb: u32,
    clip: &[u32; 4],
    drawn: &mut [u64; 1],
) -> u32
    ensures { (result, (drawn.new, bytes.new))
        ≡ gives (call (canvas_of canvas.now) (draw_round_rect x y w h arc_w arc_h (color_of argb) (clip_of clip.now)) bytes.old) }
{
    let v = canvas_of(canvas);
    let c = clip_of(clip);
    let k = color_of(argb);
    let d = ovals::draw_round_rect(v, bytes, x, y, w, h, arc_w, arc_h, k, c);
    give_drawn(d, drawn)
}

pub fn tuyrashka_fill_round_rect(
    canvas: &[u32; 6],
    bytes: &mut [u8],
    x: i32,
    y: i32,
    w: u32,
    h: u32,
    arc_w: u32,
    arc_h: u32,
    argb: u32,
    clip: &[u32; 4],
    drawn: &mut [u64; 1],
) -> u32
    ensures { (result, (drawn.new, bytes.new))
        ≡ gives (call (canvas_of canvas.now) (fill_round_rect x y w h arc_w arc_h (color_of argb) (clip_of clip.now)) bytes.old) }
{
    let v = canvas_of(canvas);
    let c = clip_of(clip);
    let k = color_of(argb);
    let d = ovals::fill_round_rect(v, bytes, x, y, w, h, arc_w, arc_h, k, c);
    give_drawn(d, drawn)
}
