// What C and Rust link, declared in include/tuyrashka.h: each call of tuyrashka by its name.
#![tactic(auto)]

ghost use Rattle.std.specs.Prelude.{◌≡◌};
ghost use Rattle.canvas.specs.Call.{put_pixel, draw_line, draw_rect, fill_rect, call};
ghost use Rattle.canvas.specs.Clip.{intersection};
ghost use Rattle.canvas.specs.Look.{pixel_at};
ghost use Rattle.tuyrashka.specs.Exported.{canvas_of, clip_of, words_of, color_of, gives, tells};

mod areas;
mod bitmap;
mod icon;
mod rounds;

#[unsafe(no_mangle)]
pub extern "C" fn tuyrashka_put_pixel(
    canvas: &[u32; 6],
    bytes: &mut [u8],
    x: i32,
    y: i32,
    argb: u32,
    clip: &[u32; 4],
    drawn: &mut [u64; 1],
) -> u32
    ensures { (result, (drawn.new, bytes.new))
        ≡ gives (call (canvas_of canvas.now) (put_pixel x y (color_of argb) (clip_of clip.now)) bytes.old) }
{
    tuyrashka::tuyrashka_put_pixel(canvas, bytes, x, y, argb, clip, drawn)
}

#[unsafe(no_mangle)]
pub extern "C" fn tuyrashka_draw_line(
    canvas: &[u32; 6],
    bytes: &mut [u8],
    x1: i32,
    y1: i32,
    x2: i32,
    y2: i32,
    argb: u32,
    clip: &[u32; 4],
    drawn: &mut [u64; 1],
) -> u32
    ensures { (result, (drawn.new, bytes.new))
        ≡ gives (call (canvas_of canvas.now) (draw_line x1 y1 x2 y2 (color_of argb) (clip_of clip.now)) bytes.old) }
{
    tuyrashka::tuyrashka_draw_line(canvas, bytes, x1, y1, x2, y2, argb, clip, drawn)
}

#[unsafe(no_mangle)]
pub extern "C" fn tuyrashka_draw_rect(
    canvas: &[u32; 6],
    bytes: &mut [u8],
    x: i32,
    y: i32,
    w: u32,
    h: u32,
    argb: u32,
    clip: &[u32; 4],
    drawn: &mut [u64; 1],
) -> u32
    ensures { (result, (drawn.new, bytes.new))
        ≡ gives (call (canvas_of canvas.now) (draw_rect x y w h (color_of argb) (clip_of clip.now)) bytes.old) }
{
    tuyrashka::tuyrashka_draw_rect(canvas, bytes, x, y, w, h, argb, clip, drawn)
}

#[unsafe(no_mangle)]
pub extern "C" fn tuyrashka_fill_rect(
    canvas: &[u32; 6],
    bytes: &mut [u8],
    x: i32,
    y: i32,
    w: u32,
    h: u32,
    argb: u32,
    clip: &[u32; 4],
    drawn: &mut [u64; 1],
) -> u32
    ensures { (result, (drawn.new, bytes.new))
        ≡ gives (call (canvas_of canvas.now) (fill_rect x y w h (color_of argb) (clip_of clip.now)) bytes.old) }
{
    tuyrashka::tuyrashka_fill_rect(canvas, bytes, x, y, w, h, argb, clip, drawn)
}

#[unsafe(no_mangle)]
pub extern "C" fn tuyrashka_get_pixel(
    canvas: &[u32; 6],
    bytes: &[u8],
    x: i32,
    y: i32,
    found: &mut bool,
    argb: &mut u32,
) -> u32
    ensures { (result, (found.new, argb.new)) ≡ tells (pixel_at (canvas_of canvas.now) bytes.now x y) }
{
    tuyrashka::tuyrashka_get_pixel(canvas, bytes, x, y, found, argb)
}

#[unsafe(no_mangle)]
pub extern "C" fn tuyrashka_clip_intersect(a: &[u32; 4], b: &[u32; 4], both: &mut [u32; 4])
    ensures { both.new ≡ words_of (intersection (clip_of a.now) (clip_of b.now)) }
{
    tuyrashka::tuyrashka_clip_intersect(a, b, both)
}
