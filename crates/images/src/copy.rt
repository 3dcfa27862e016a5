// Area copy without a second buffer: chunk by chunk, in the direction in which no pixel is written before it is read.
ghost use Rattle.std.specs.Prelude.{◌≡◌, ◌+◌, ◌≤◌, ◌<◌};
ghost use Rattle.words.specs.Format.{format_of, rgb8};
ghost use Rattle.pixels.specs.Bytes.{Sized};
ghost use Rattle.pixels.specs.Hits.{paint};
ghost use Rattle.pixels.specs.Rows.{run, marks};
ghost use Rattle.canvas.specs.Call.{leaves};
ghost use Rattle.images.specs.Areas.{copy_area, counted};
ghost use Rattle.images.specs.Chunks.{SeenAs, shifted};
ghost use Rattle.images.specs.Parts.{Placed, filled};

use crate::parts::{Part, shown};
use canvas::faults::judge;
use canvas::{Clip, Drawn, Tally};
use pixels::Canvas;
use pixels::chunks::{lay, take};

// Rgb8's top bytes cleared.
fn clear_tops(ws: &mut [u32])
    ensures { SeenAs rgb8 ws.old ws.new }
{
    for w in ws.iter_mut() {
        *w = *w % 16777216;
    }
}

// What reading sees of words.
fn see(format: u32, ws: &mut [u32])
    ensures { SeenAs (format_of format) ws.old ws.new }
{
    if format == 2 {
        clear_tops(ws);
    }
}

// n pixels, no more than the chunk holds, of row sy from sx on, to row y from x on.
fn copy_chunk(
    canvas: Canvas,
    b: &mut [u8],
    y: usize,
    x: usize,
    sy: usize,
    sx: usize,
    n: usize,
    chunk: &mut [u32; 64],
)
    requires sized { Sized canvas b.old }
    requires few { n ≤ 64 }
    requires wide { x + n ≤ canvas.width }
    requires high { y < canvas.height }
    requires columns { sx + n ≤ canvas.width }
    requires rows { sy < canvas.height }
    ensures { b.new ≡ paint canvas (marks (shifted canvas b.old x y sx sy) (run x n) y) b.old }
{
    let ws = &mut chunk[..n];
    take(canvas, b, sy, sx, ws);
    see(canvas.format, ws);
    lay(canvas, b, y, x, ws);
}

// A row of n pixels, chunk by chunk: from the left where the source lies to the right.
fn copy_row(
    canvas: Canvas,
    b: &mut [u8],
    y: usize,
    x: usize,
    sy: usize,
    sx: usize,
    n: usize,
    chunk: &mut [u32; 64],
)
    requires sized { Sized canvas b.old }
    requires wide { x + n ≤ canvas.width }
    requires high { y < canvas.height }
    requires columns { sx + n ≤ canvas.width }
    requires rows { sy < canvas.height }
    ensures { b.new ≡ paint canvas (marks (shifted canvas b.old x y sx sy) (run x n) y) b.old }
{
    let right = x <= sx;
    let mut k = 0;
    while k < n {
        let m = (n - k).min(64);
        let at = if right { k } else { n - k - m };
        copy_chunk(canvas, b, y, x + at, sy, sx + at, m, chunk);
        k += m;
    }
}

// A part, row by row: from the top where the source lies below.
fn copy_part(canvas: Canvas, b: &mut [u8], part: Part)
    requires sized { Sized canvas b.old }
    requires placed { Placed canvas canvas part }
    ensures { b.new ≡ paint canvas (filled (shifted canvas b.old part.x part.y part.sx part.sy) part) b.old }
{
    let mut chunk = [0u32; 64];
    let Part { x, y, w, h, sx, sy } = part;
    let below = y <= sy;
    for k in 0..h {
        let at = if below { k } else { h - k - 1 };
        copy_row(canvas, b, y + at, x, sy + at, sx, w, &mut chunk);
    }
}

// The pixels of one box, in the place of those of another. The count is written before them, so that a call that is refused
// writes its own and shares no place with one that is accepted.
pub fn copy_counted(
    canvas: Canvas,
    bytes: &mut [u8],
    dx: i32,
    dy: i32,
    sx: i32,
    sy: i32,
    w: u32,
    h: u32,
    clip: Clip,
    count: &mut [u64; 1],
) -> Drawn
    ensures { (leaves result bytes.new, count.new) ≡ counted (copy_area canvas dx dy sx sy w h clip bytes.old) }
{
    if let Err(r) = judge(canvas, bytes.len()) {
        *count = [0];
        return Err(r);
    }
    let part = shown(canvas, canvas, dx, dy, sx, sy, w, h, clip);
    let n = part.pixels();
    *count = [n];
    copy_part(canvas, bytes, part);
    Ok(Tally { landed: n })
}

// The same with no place for the count.
pub fn copy_area(
    canvas: Canvas,
    bytes: &mut [u8],
    dx: i32,
    dy: i32,
    sx: i32,
    sy: i32,
    w: u32,
    h: u32,
    clip: Clip,
) -> Drawn
    ensures { leaves result bytes.new ≡ copy_area canvas dx dy sx sy w h clip bytes.old }
{
    let mut count = [0u64];
    copy_counted(canvas, bytes, dx, dy, sx, sy, w, h, clip, &mut count)
}
