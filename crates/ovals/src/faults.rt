// Which angles and boxes are refused: one fault a function, asked in the order of the refusals.
ghost use Rattle.std.specs.Prelude.{◌≡◌};
ghost use Rattle.ovals.specs.Faults.{outside, angle_fault, shape_fault, arc_fault};

use canvas::Refusal;
use canvas::faults::or_else;

fn beyond(a: i32, low: i32, high: i32) -> bool
    ensures { result ≡ outside low high a }
{
    a < low || high < a
}

fn angle_fault(start: i32, arc: i32) -> Result<(), Refusal>
    ensures { result ≡ angle_fault start arc }
{
    if beyond(start, -720, 720) || beyond(arc, -720, 720) {
        return Err(Refusal::Angle);
    }
    Ok(())
}

// The fault of a round rectangle's box.
pub(crate) fn shape_fault(x: i32, y: i32, w: u32, h: u32) -> Result<(), Refusal>
    ensures { result ≡ shape_fault x y w h }
{
    if beyond(x, -32768, 32767) || beyond(y, -32768, 32767) || 32767 < w || 32767 < h {
        return Err(Refusal::Shape);
    }
    Ok(())
}

// The first fault of an arc or a pie.
pub(crate) fn arc_fault(x: i32, y: i32, w: u32, h: u32, start: i32, arc: i32) -> Result<(), Refusal>
    ensures { result ≡ arc_fault x y w h start arc }
{
    or_else(angle_fault(start, arc), shape_fault(x, y, w, h))
}
