// The calls on records, numbers and slices, as include/tuyrashka.h declares them: points, lines and boxes. tuyrashka_c is what C links.
#![tactic(auto)]

ghost use Rattle.std.specs.Prelude.{◌≡◌};
ghost use Rattle.canvas.specs.Call.{put_pixel, draw_line, draw_rect, fill_rect, call};
ghost use Rattle.canvas.specs.Clip.{intersection};
ghost use Rattle.canvas.specs.Look.{pixel_at};
ghost use Rattle.tuyrashka.specs.Exported.{canvas_of, clip_of, words_of, color_of, gives, tells};

mod areas;
mod bitmap;
mod icon;
mod records;
mod rounds;

pub use areas::{tuyrashka_copy_area, tuyrashka_draw, tuyrashka_invert_rect};
pub use bitmap::tuyrashka_decode_lbmp;
pub use icon::tuyrashka_decode_res;
use records::{canvas_of, clip_of, color_of, give_clip, give_drawn};
pub use rounds::{
    tuyrashka_draw_arc, tuyrashka_draw_round_rect, tuyrashka_fill_arc, tuyrashka_fill_round_rect,
};

pub fn tuyrashka_put_pixel(
    canvas: &[u32; 6],
    bytes: &mut [u8],
    x: i32,
    y: i32,
    argb: u32,
    clip: &[u32; 4],
    drawn: &mut [u64; 1],
) -> u32
    ensures { (result, (drawn.new, bytes.new))
        ≡ gives (call (canvas_of canvas.now) (put_pixel x y (color_of argb) (clip_of clip.now)) bytes.old) }
{
    let v = canvas_of(canvas);
    let c = clip_of(clip);
    let k = color_of(argb);
    let d = canvas::put_pixel(v, bytes, x, y, k, c);
    give_drawn(d, drawn)
}

pub fn tuyrashka_draw_line(
    canvas: &[u32; 6],
    bytes: &mut [u8],
    x1: i32,
    y1: i32,
    x2: i32,
    y2: i32,
    argb: u32,
    clip: &[u32; 4],
    drawn: &mut [u64; 1],
) -> u32
    ensures { (result, (drawn.new, bytes.new))
        ≡ gives (call (canvas_of canvas.now) (draw_line x1 y1 x2 y2 (color_of argb) (clip_of clip.now)) bytes.old) }
{
    let v = canvas_of(canvas);
    let c = clip_of(clip);
    let k = color_of(argb);
    let d = canvas::draw_line(v, bytes, x1, y1, x2, y2, k, c);
    give_drawn(d, drawn)
}

pub fn tuyrashka_draw_rect(
    canvas: &[u32; 6],
    bytes: &mut [u8],
    x: i32,
    y: i32,
    w: u32,
    h: u32,
    argb: u32,
    clip: &[u32; 4],
    drawn: &mut [u64; 1],
) -> u32
    ensures { (result, (drawn.new, bytes.new))
        ≡ gives (call (canvas_of canvas.now) (draw_rect x y w h (color_of argb) (clip_of clip.now)) bytes.old) }
{
    let v = canvas_of(canvas);
    let c = clip_of(clip);
    let k = color_of(argb);
    let d = canvas::draw_rect(v, bytes, x, y, w, h, k, c);
    give_drawn(d, drawn)
}

pub fn tuyrashka_fill_rect(
    canvas: &[u32; 6],
    bytes: &mut [u8],
    x: i32,
    y: i32,
    w: u32,
    h: u32,
    argb: u32,
    clip: &[u32; 4],
    drawn: &mut [u64; 1],
) -> u32
    ensures { (result, (drawn.new, bytes.new))
        ≡ gives (call (canvas_of canvas.now) (fill_rect x y w h (color_of argb) (clip_of clip.now)) bytes.old) }
{
    let v = canvas_of(canvas);
    let c = clip_of(clip);
    let k = color_of(argb);
    let d = canvas::fill_rect(v, bytes, x, y, w, h, k, c);
    give_drawn(d, drawn)
}

pub fn tuyrashka_get_pixel(
    canvas: &[u32; 6],
    bytes: &[u8],
    x: i32,
    y: i32,
    found: &mut bool,
    argb: &mut u32,
) -> u32
    ensures { (result, (found.new, argb.new)) ≡ tells (pixel_at (canvas_of canvas.now) bytes.now x y) }
{
    let v = canvas_of(canvas);
    let p = canvas::get_pixel(v, bytes, x, y);
    *found = false;
    *argb = 0;
    match p {
        Err(r) => r.number(),
        Ok(seen) => match seen {
            None => 0,
            Some(c) => {
                *found = true;
                *argb = words::from_color(3, c);
                0
            }
        },
    }
}

pub fn tuyrashka_clip_intersect(a: &[u32; 4], b: &[u32; 4], both: &mut [u32; 4])
    ensures { both.new ≡ words_of (intersection (clip_of a.now) (clip_of b.now)) }
{
    let c = clip_of(a);
    let d = clip_of(b);
    give_clip(c.intersect(d), both);
}
