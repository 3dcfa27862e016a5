// Which canvases are refused.
ghost use Rattle.std.specs.Prelude.{◌≡◌, ◌≤◌, not, ◌||◌, ◌==◌, nat_lt};
ghost use Rattle.canvas.specs.Faults.{or_else, verdict};

use crate::Refusal;
use pixels::Canvas;

// The first of two faults.
pub fn or_else(f: Result<(), Refusal>, d: Result<(), Refusal>) -> Result<(), Refusal>
    ensures { result ≡ or_else f d }
{
    f.and(d)
}

// Whether a number is neither 1 nor 2; 0 wraps around.
fn is_unruly(rule: u32) -> bool
    ensures { result ≡ not (rule == 1 || rule == 2) }
{
    1 < rule.wrapping_sub(1)
}

// Whether one of two numbers is above 32,767: then what has the bits of both is.
fn is_large(a: u32, b: u32) -> bool
    ensures { result ≡ (nat_lt 32767 a || nat_lt 32767 b) }
{
    32767 < (a | b)
}

// Whether the row is below the width or above 32,767; below the width the tail wraps around.
fn is_off(row: u32, width: u32) -> bool
    requires { width ≤ 32767 }
    ensures { result ≡ (nat_lt row width || nat_lt 32767 row) }
{
    is_large(row, row.wrapping_sub(width))
}

// The first fault of a canvas with so many bytes. The length is asked before the row, and the row is named where both
// are at fault.
pub fn judge(canvas: Canvas, len: usize) -> Result<(), Refusal>
    ensures { result ≡ verdict canvas len }
{
    if 4 < canvas.format {
        return Err(Refusal::Format);
    }
    if is_unruly(canvas.rule) {
        return Err(Refusal::Rule);
    }
    if is_large(canvas.width, canvas.height) {
        return Err(Refusal::Size);
    }
    if !pixels::bytes::is_whole(canvas, len) {
        if canvas.row == canvas.width {
            return Err(Refusal::Length);
        }
        if is_off(canvas.row, canvas.width) {
            return Err(Refusal::Row);
        }
        return Err(Refusal::Length);
    }
    if !is_off(canvas.row, canvas.width) {
        return Ok(());
    }
    Err(Refusal::Row)
}
