// The drawing calls: each is made with the op's own numbers, those before COL and CLIP, on a canvas, in a colour and under a
// clip that come from elsewhere.
ghost use Rattle.std.specs.Prelude.{◌≡◌};
ghost use Rattle.canvas.specs.Call.{leaves};
ghost use Rattle.replies.specs.Calls.{drawn_by, round_by, picture_by};

use crate::numbers::Row;
use canvas::{Clip, Drawn, Tally};
use cases::{ARC, COPY, DRAW, FILL, FRRECT, INVERT, LINE, PIE, PUT, RECT, RRECT};
use pixels::Canvas;
use words::Color;

// Draws an image or copies an area; what is no drawing op draws nothing.
fn picture_call(op: u64, n: Row, v: Canvas, k: Clip, image: &[u8], bytes: &mut [u8]) -> Drawn
    ensures { leaves result bytes.new ≡ picture_by op n.words v k image.now bytes.old }
{
    let x = n.int(0);
    let y = n.int(1);
    match op {
        COPY => images::copy_area(v, bytes, x, y, n.int(2), n.int(3), n.word(4), n.word(5), k),
        DRAW => {
            let w = n.word(2);
            let h = n.word(3);
            let s = n.canvas(4, 8, false);
            images::draw(v, bytes, x, y, w, h, s, image, n.int(10), n.int(11), k)
        }
        _ => Ok(Tally { landed: 0 }),
    }
}

// The calls of ovals, and those above.
fn round_call(
    op: u64,
    n: Row,
    v: Canvas,
    c: Color,
    k: Clip,
    image: &[u8],
    bytes: &mut [u8],
) -> Drawn
    ensures { leaves result bytes.new ≡ round_by op n.words v c k image.now bytes.old }
{
    let x = n.int(0);
    let y = n.int(1);
    let w = n.word(2);
    let h = n.word(3);
    match op {
        ARC => ovals::draw_arc(v, bytes, x, y, w, h, n.int(4), n.int(5), c, k),
        PIE => ovals::fill_arc(v, bytes, x, y, w, h, n.int(4), n.int(5), c, k),
        RRECT => ovals::draw_round_rect(v, bytes, x, y, w, h, n.word(4), n.word(5), c, k),
        FRRECT => ovals::fill_round_rect(v, bytes, x, y, w, h, n.word(4), n.word(5), c, k),
        _ => picture_call(op, n, v, k, image, bytes),
    }
}

// Makes the drawing call that an op with its own numbers stands for. An image is looked at by draw alone.
pub fn call(
    op: u64,
    n: [u32; 16],
    v: Canvas,
    c: Color,
    k: Clip,
    image: &[u8],
    bytes: &mut [u8],
) -> Drawn
    ensures { leaves result bytes.new ≡ drawn_by op n v c k image.now bytes.old }
{
    let n = Row { words: n };
    let x = n.int(0);
    let y = n.int(1);
    let w = n.word(2);
    let h = n.word(3);
    match op {
        PUT => canvas::put_pixel(v, bytes, x, y, c, k),
        LINE => canvas::draw_line(v, bytes, x, y, n.int(2), n.int(3), c, k),
        RECT => canvas::draw_rect(v, bytes, x, y, w, h, c, k),
        FILL => canvas::fill_rect(v, bytes, x, y, w, h, c, k),
        INVERT => canvas::invert_rect(v, bytes, x, y, w, h, k),
        _ => round_call(op, n, v, c, k, image, bytes),
    }
}
