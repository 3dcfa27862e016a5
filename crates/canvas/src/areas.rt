// Inversion, which ignores XOR.
ghost use Rattle.std.specs.Prelude.{◌≡◌, ◌<◌};
ghost use Rattle.words.specs.Ink.{inked};
ghost use Rattle.words.specs.Invert.{invert_ink};
ghost use Rattle.pixels.specs.Bytes.{form, Sized};
ghost use Rattle.canvas.specs.Plot.{inks};
ghost use Rattle.canvas.specs.Boxes.{fill};
ghost use Rattle.canvas.specs.Walk.{work, lowered, Did};
ghost use Rattle.canvas.specs.Call.{invert_rect, leaves, call};

use crate::boxes::fill_in;
use crate::faults::judge;
use crate::span::lift;
use crate::{Clip, Drawn, Tally};
use pixels::Canvas;

// The plots of an inverted box with a lifted corner. XOR, which inversion ignores, is not handed on, so that a call that is
// refused never asks for it.
fn invert_in(canvas: Canvas, b: &mut [u8], p: u64, q: u64, w: u32, h: u32, clip: Clip) -> Tally
    requires { (Sized canvas b.old) × ((p < 17179869184) × (q < 17179869184)) }
    ensures { Did canvas clip (inks (inked (invert_ink (form canvas))) (fill canvas (lowered p) (lowered q) w h))
        (work b.old (record { landed = 0 })) (work b.new result) }
{
    let plain = Canvas {
        xor: false,
        ..canvas
    };
    let ink = words::invert_ink(canvas.format);
    fill_in(plain, b, p, q, w, h, ink, clip, Tally { landed: 0 })
}

// The colours of a box, each to its complement.
pub fn invert_rect(
    canvas: Canvas,
    bytes: &mut [u8],
    x: i32,
    y: i32,
    w: u32,
    h: u32,
    clip: Clip,
) -> Drawn
    ensures { leaves result bytes.new ≡ call canvas (invert_rect x y w h clip) bytes.old }
{
    judge(canvas, bytes.len())?;
    let p = lift(x);
    let q = lift(y);
    Ok(invert_in(canvas, bytes, p, q, w, h, clip))
}
