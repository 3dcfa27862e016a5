// Drawing an image: its colours and the words below them go through chunks of 64 words.
ghost use Rattle.std.specs.Prelude.{◌≡◌, ◌+◌, ◌≤◌, ◌<◌};
ghost use Rattle.blending.specs.Loops.{blended};
ghost use Rattle.pixels.specs.Bytes.{form, Sized};
ghost use Rattle.pixels.specs.Hits.{paint};
ghost use Rattle.pixels.specs.Rows.{run, marks};
ghost use Rattle.canvas.specs.Faults.{verdict, as_source};
ghost use Rattle.canvas.specs.Call.{carried, leaves, call};
ghost use Rattle.canvas.specs.Call.{draw as draw_call};
ghost use Rattle.images.specs.Chunks.{overlaid, Solid};
ghost use Rattle.images.specs.Parts.{Placed, filled};

use crate::parts::{Part, shown};
use canvas::faults::judge;
use canvas::{Clip, Drawn, Refusal, Tally};
use pixels::Canvas;
use pixels::chunks::{lay, take};

// What drawing colours leaves of words. Those of an image that keeps no alpha are stored.
fn compose(canvas: Canvas, source: Canvas, cs: &[u32], ws: &mut [u32])
    requires { (canvas.format ≤ 4) × (Solid source.format cs.now) }
    ensures { ws.new ≡ blended (form canvas) (carried canvas) canvas.xor cs.now ws.old }
{
    if !canvas.xor {
        if source.format < 3 {
            blending::loops::store_words(canvas.format, cs, ws);
            return;
        }
    }
    blending::loops::blend_words(canvas.format, canvas.rule, canvas.xor, cs, ws);
}

// n pixels, no more than the chunks hold, of the image's row sy from sx on, over row y from x on.
fn draw_chunk(
    canvas: Canvas,
    b: &mut [u8],
    y: usize,
    x: usize,
    source: Canvas,
    image: &[u8],
    sy: usize,
    sx: usize,
    n: usize,
    cs: &mut [u32; 64],
    ws: &mut [u32; 64],
)
    requires sized { Sized canvas b.old }
    requires source_sized { Sized source image.now }
    requires few { n ≤ 64 }
    requires wide { x + n ≤ canvas.width }
    requires high { y < canvas.height }
    requires columns { sx + n ≤ source.width }
    requires rows { sy < source.height }
    ensures { b.new ≡ paint canvas (marks (overlaid canvas source image.now x y sx sy) (run x n) y) b.old }
{
    let cs = &mut cs[..n];
    let ws = &mut ws[..n];
    take(source, image, sy, sx, cs);
    blending::loops::read_colors(source.format, cs);
    take(canvas, b, y, x, ws);
    compose(canvas, source, cs, ws);
    lay(canvas, b, y, x, ws);
}

// A row of n pixels, chunk by chunk. The chunk's length is the step, here and in a copy: of a step of 64 the compiler makes a
// loop that takes more instructions a chunk.
fn draw_row(
    canvas: Canvas,
    b: &mut [u8],
    y: usize,
    x: usize,
    source: Canvas,
    image: &[u8],
    sy: usize,
    sx: usize,
    n: usize,
    cs: &mut [u32; 64],
    ws: &mut [u32; 64],
)
    requires sized { Sized canvas b.old }
    requires source_sized { Sized source image.now }
    requires wide { x + n ≤ canvas.width }
    requires high { y < canvas.height }
    requires columns { sx + n ≤ source.width }
    requires rows { sy < source.height }
    ensures { b.new ≡ paint canvas (marks (overlaid canvas source image.now x y sx sy) (run x n) y) b.old }
{
    let mut k = 0;
    while k < n {
        let m = (n - k).min(64);
        draw_chunk(canvas, b, y, x + k, source, image, sy, sx + k, m, cs, ws);
        k += m;
    }
}

// A part, row by row.
fn draw_part(canvas: Canvas, b: &mut [u8], part: Part, source: Canvas, image: &[u8])
    requires sized { Sized canvas b.old }
    requires source_sized { Sized source image.now }
    requires placed { Placed canvas source part }
    ensures { b.new ≡ paint canvas (filled (overlaid canvas source image.now part.x part.y part.sx part.sy) part) b.old }
{
    let mut cs = [0u32; 64];
    let mut ws = [0u32; 64];
    let Part { x, y, w, h, sx, sy } = part;
    for k in 0..h {
        draw_row(
            canvas,
            b,
            y + k,
            x,
            source,
            image,
            sy + k,
            sx,
            w,
            &mut cs,
            &mut ws,
        );
    }
}

// The first fault of a source, as a call names it.
fn judge_source(source: Canvas, len: usize) -> Result<(), Refusal>
    ensures { result ≡ as_source (verdict source len) }
{
    judge(source, len).map_err(|_| Refusal::Source)
}

// A box of an image, over what is there.
pub fn draw(
    canvas: Canvas,
    bytes: &mut [u8],
    dx: i32,
    dy: i32,
    w: u32,
    h: u32,
    source: Canvas,
    image: &[u8],
    sx: i32,
    sy: i32,
    clip: Clip,
) -> Drawn
    ensures { leaves result bytes.new ≡ call canvas (draw_call dx dy w h source image.now sx sy clip) bytes.old }
{
    judge(canvas, bytes.len())?;
    judge_source(source, image.len())?;
    let part = shown(canvas, source, dx, dy, sx, sy, w, h, clip);
    draw_part(canvas, bytes, part, source, image);
    Ok(Tally {
        landed: part.pixels(),
    })
}
