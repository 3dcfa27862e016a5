// Arcs, pies and round rectangles for C and Rust.
ghost use Rattle.std.specs.Prelude.{◌≡◌};
ghost use Rattle.ovals.specs.Call.{draw_arc, fill_arc, draw_round_rect, fill_round_rect};
ghost use Rattle.canvas.specs.Call.{call};
ghost use Rattle.tuyrashka.specs.Exported.{canvas_of, clip_of, color_of, gives};

#[unsafe(no_mangle)]
pub extern "C" fn tuyrashka_draw_arc(
    canvas: &[u32; 6],
    bytes: &mut [u8],
    x: i32,
    y: i32,
    w: u32,
    h: u32,
    start_angle: i32,
    arc_angle: i32,
    argb: u32,
    clip: &[u32; 4],
    drawn: &mut [u64; 1],
) -> u32
    ensures { (result, (drawn.new, bytes.new))
        ≡ gives (call (canvas_of canvas.now) (draw_arc x y w h start_angle arc_angle (color_of argb) (clip_of clip.now)) bytes.old) }
{
    tuyrashka::tuyrashka_draw_arc(
        canvas,
        bytes,
        x,
        y,
        w,
        h,
        start_angle,
        arc_angle,
        argb,
        clip,
        drawn,
    )
}

#[unsafe(no_mangle)]
pub extern "C" fn tuyrashka_fill_arc(
    canvas: &[u32; 6],
    bytes: &mut [u8],
    x: i32,
    y: i32,
    w: u32,
    h: u32,
    start_angle: i32,
    arc_angle: i32,
    argb: u32,
    clip: &[u32; 4],
    drawn: &mut [u64; 1],
) -> u32
    ensures { (result, (drawn.new, bytes.new))
        ≡ gives (call (canvas_of canvas.now) (fill_arc x y w h start_angle arc_angle (color_of argb) (clip_of clip.now)) bytes.old) }
{
    tuyrashka::tuyrashka_fill_arc(
        canvas,
        bytes,
        x,
        y,
        w,
        h,
        start_angle,
        arc_angle,
        argb,
        clip,
        drawn,
    )
}

#[unsafe(no_mangle)]
pub extern "C" fn tuyrashka_draw_round_rect(
    canvas: &[u32; 6],
    bytes: &mut [u8],
    x: i32,
    y: i32,
    w: u32,
    h: u32,
    arc_w: u32,
    arc_h: u32,
    argb: u32,
    clip: &[u32; 4],
    drawn: &mut [u64; 1],
) -> u32
    ensures { (result, (drawn.new, bytes.new))
        ≡ gives (call (canvas_of canvas.now) (draw_round_rect x y w h arc_w arc_h (color_of argb) (clip_of clip.now)) bytes.old) }
{
    tuyrashka::tuyrashka_draw_round_rect(canvas, bytes, x, y, w, h, arc_w, arc_h, argb, clip, drawn)
}

#[unsafe(no_mangle)]
pub extern "C" fn tuyrashka_fill_round_rect(
    canvas: &[u32; 6],
    bytes: &mut [u8],
    x: i32,
    y: i32,
    w: u32,
    h: u32,
    arc_w: u32,
    arc_h: u32,
    argb: u32,
    clip: &[u32; 4],
    drawn: &mut [u64; 1],
) -> u32
    ensures { (result, (drawn.new, bytes.new))
        ≡ gives (call (canvas_of canvas.now) (fill_round_rect x y w h arc_w arc_h (color_of argb) (clip_of clip.now)) bytes.old) }
{
    tuyrashka::tuyrashka_fill_round_rect(canvas, bytes, x, y, w, h, arc_w, arc_h, argb, clip, drawn)
}
