// Spans and clips: signed corners become numbers that are not negative at the door.
ghost use Rattle.std.specs.Prelude.{◌≡◌, ◌+◌, ◌-◌, ◌<◌, min, max, pos, ◌+ℤ◌};
ghost use Rattle.std.specs.Int.{w32};
ghost use Rattle.std.proofs.Common.{to_z};
ghost use Rattle.canvas.specs.Clip.{within, in_clip, shared};
ghost use Rattle.canvas.specs.Walk.{lifted, lowered, in_order, cut_of};

use crate::Clip;
use pixels::rows::Span;

// Where 0 lies among lifted numbers.
pub const ORIGIN: u64 = 1 << 31;

// The i32 with these 32 bits: the number itself below 2^31, else 2^32 less.
pub fn signed(n: u32) -> i32
    ensures { result ≡ to_z w32 n }
{
    n.cast_signed()
}

// A signed number as one that is not negative, 2^31 above it.
pub fn lift(x: i32) -> u64
    ensures { result ≡ lifted x }
{
    ORIGIN.wrapping_add_signed(x as i64)
}

// Whether p is one of the n numbers from a on.
pub(crate) fn in_span(a: i32, n: u32, p: usize) -> bool
    requires { p < 32768 }
    ensures { result ≡ within a n (pos p) }
{
    let past = (ORIGIN + p as u64).wrapping_sub(lift(a));
    past < n as u64
}

// Whether a point of the canvas is inside the clip.
pub(crate) fn in_clip(clip: Clip, x: usize, y: usize) -> bool
    requires { (x < 32768) × (y < 32768) }
    ensures { result ≡ in_clip clip (pos x) (pos y) }
{
    in_span(clip.x, clip.width, x) && in_span(clip.y, clip.height, y)
}

// Whether a lifted number is on a side of n pixels.
pub(crate) fn on_side(p: u64, n: u32) -> bool
    ensures { result ≡ within (pos 0) n (lowered p) }
{
    p.wrapping_sub(ORIGIN) < n as u64
}

// From one place up to another; where that is nothing, from 0 up to 0.
fn in_order(from: u64, to: u64) -> Span
    ensures { result ≡ in_order from to }
{
    if to < from {
        return Span { from: 0, to: 0 };
    }
    Span {
        from: from as usize,
        to: to as usize,
    }
}

// The places from one lifted number up to another, on a canvas's side of n pixels.
fn side_between(from: u64, end: u64, n: u32) -> Span
    ensures { result ≡ in_order (from - 2147483648) (min (end - 2147483648) n) }
{
    let to = end.saturating_sub(ORIGIN);
    in_order(from.saturating_sub(ORIGIN), to.min(n as u64))
}

// What the span of len from a lifted p has of a canvas's side of n pixels inside the clip's span of m from c.
pub fn overlap(p: u64, len: u32, c: i32, m: u32, n: u32) -> Span
    requires { p < 17179869184 }
    ensures { result ≡ cut_of (p - 2147483648) (p + len - 2147483648) c m n }
{
    let u = lift(c);
    let end = (p + len as u64).min(u + m as u64);
    side_between(p.max(u), end, n)
}

// A canvas's side of n pixels inside the clip's span of m from c.
pub fn window(c: i32, m: u32, n: u32) -> Span
    ensures { result ≡ cut_of 0 n c m n }
{
    let u = lift(c);
    side_between(u, u + m as u64, n)
}

// The part of a canvas's side of n pixels that lies in the span of len from p and in the clip's, and whose source from s
// on is on a side of m. Starts are lifted.
pub fn shown_in(p: u64, s: u64, len: u32, m: u32, c: i32, k: u32, n: u32) -> Span
    requires { p < 4294967296 }
    ensures { result ≡ cut_of (max (p - 2147483648) (p - s)) (min (p + len - 2147483648) (p + m - s)) c k n }
{
    let u = lift(c);
    let q = p + ORIGIN;
    let from = p.max(u).max(q.saturating_sub(s));
    let end = (p + len as u64).min(u + k as u64);
    side_between(from, end.min((q + m as u64).saturating_sub(s)), n)
}

// How far two spans go on together, from the larger start.
pub(crate) fn shared_by(a: i32, m: u32, b: i32, n: u32) -> u32
    ensures { result ≡ shared a m b n }
{
    let u = lift(a);
    let v = lift(b);
    let end = (u + m as u64).min(v + n as u64);
    let start = u.max(v);
    end.saturating_sub(start) as u32
}
