// Inversion, area copy and images for C and Rust.
ghost use Rattle.std.specs.Prelude.{◌≡◌};
ghost use Rattle.canvas.specs.Call.{invert_rect, draw, call};
ghost use Rattle.images.specs.Areas.{copy_area};
ghost use Rattle.tuyrashka.specs.Exported.{canvas_of, source_of, clip_of, gives};

use crate::records::{canvas_of, clip_of, give_drawn, source_of};

pub fn tuyrashka_invert_rect(
    canvas: &[u32; 6],
    bytes: &mut [u8],
    x: i32,
    y: i32,
    w: u32,
    h: u32,
    clip: &[u32; 4],
    drawn: &mut [u64; 1],
) -> u32
    ensures { (result, (drawn.new, bytes.new))
        ≡ gives (call (canvas_of canvas.now) (invert_rect x y w h (clip_of clip.now)) bytes.old) }
{
    let v = canvas_of(canvas);
    let c = clip_of(clip);
    let d = canvas::invert_rect(v, bytes, x, y, w, h, c);
    give_drawn(d, drawn)
}

pub fn tuyrashka_copy_area(
    canvas: &[u32; 6],
    bytes: &mut [u8],
    dx: i32,
    dy: i32,
    sx: i32,
    sy: i32,
    w: u32,
    h: u32,
    clip: &[u32; 4],
    drawn: &mut [u64; 1],
) -> u32
    ensures { (result, (drawn.new, bytes.new))
        ≡ gives (copy_area (canvas_of canvas.now) dx dy sx sy w h (clip_of clip.now) bytes.old) }
{
    let v = canvas_of(canvas);
    let c = clip_of(clip);
    let d = images::copy_counted(v, bytes, dx, dy, sx, sy, w, h, c, drawn);
    canvas::status(d)
}

pub fn tuyrashka_draw(
    canvas: &[u32; 6],
    bytes: &mut [u8],
    dx: i32,
    dy: i32,
    w: u32,
    h: u32,
    source: &[u32; 6],
    image: &[u8],
    sx: i32,
    sy: i32,
    clip: &[u32; 4],
    drawn: &mut [u64; 1],
) -> u32
    ensures { (result, (drawn.new, bytes.new))
        ≡ gives (call (canvas_of canvas.now) (draw dx dy w h (source_of source.now) image.now sx sy (clip_of clip.now)) bytes.old) }
{
    let v = canvas_of(canvas);
    let s = source_of(source);
    let c = clip_of(clip);
    let d = images::draw(v, bytes, dx, dy, w, h, s, image, sx, sy, c);
    give_drawn(d, drawn)
}
