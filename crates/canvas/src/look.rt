// Reading a pixel.
ghost use Rattle.std.specs.Prelude.{◌≡◌};
ghost use Rattle.canvas.specs.Look.{reads, look, pixel_at};
ghost use Rattle.pixels.specs.Bytes.{Sized};
ghost use Rattle.canvas.specs.Walk.{lowered};

use crate::Refusal;
use crate::faults::judge;
use crate::span::{ORIGIN, lift};
use pixels::Canvas;
use words::Color;

// The color of a pixel of the canvas.
pub fn get_pixel(canvas: Canvas, bytes: &[u8], x: i32, y: i32) -> Result<Option<Color>, Refusal>
    ensures { reads result ≡ pixel_at canvas bytes.now x y }
{
    judge(canvas, bytes.len())?;
    Ok(pixel_at(canvas, bytes, lift(x), lift(y)))
}

// The color at a lifted point, if that is on the canvas.
fn pixel_at(canvas: Canvas, b: &[u8], p: u64, q: u64) -> Option<Color>
    requires { Sized canvas b.now }
    ensures { result ≡ look canvas b.now (lowered p) (lowered q) }
{
    if !crate::plot::on_canvas(canvas, p, q) {
        return None;
    }
    let x = (p - ORIGIN) as usize;
    let y = (q - ORIGIN) as usize;
    let raw = pixels::bytes::load_at(canvas, b, x, y);
    Some(words::to_color(canvas.format, raw))
}
