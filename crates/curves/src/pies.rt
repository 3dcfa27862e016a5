// Pies: the degrees that one covers, and where in a row the pixels in them begin and end. The ellipse is in `bulges`.
ghost use Rattle.std.specs.Prelude.{◌≡◌, ◌+◌, ◌*◌, ◌%◌, ◌<◌, ◌≤◌, false};
ghost use Rattle.std.specs.Float.{binary32};
ghost use Rattle.std.specs.Float.Ieee.{neg, add, mul, lt};
ghost use Rattle.floats.specs.Size.{one};
ghost use Rattle.angle.specs.Arctangent.{Domain};
ghost use Rattle.curves.specs.declared.pies.Sweep.TheVariants.{Part};
ghost use Rattle.curves.specs.Pies.{sweep_of, is_all, in_arc, in_sweep, pie_of, all_round, covers, Next};
ghost use Rattle.curves.specs.Pies.{is_whole, degrees_of, flank_of, eighth_of, Swept};

use crate::oval::{Oval, oval_in};

// The degrees that a pie covers: all, none, or `length` of them from `start` on.
#[derive(Clone, Copy)]
pub enum Sweep {
    All,
    Empty,
    Part { start: f32, length: f32 },
}

// Of a part sweep in whole degrees: how far past its start the direction of 0 degrees lies, and its length.
#[derive(Clone, Copy)]
pub struct Degrees {
    pub from: u64,
    pub length: u64,
}

// The oval of its box, and its sweep.
#[derive(Clone, Copy)]
pub struct Pie {
    pub oval: Oval,
    pub sweep: Sweep,
    pub degrees: Option<Degrees>,
}

fn sweep_of(start: f32, sweep: f32) -> Sweep
    ensures { result ≡ sweep_of start sweep }
{
    if floats::abs(sweep) >= 360.0 {
        Sweep::All
    } else if sweep == 0.0 {
        Sweep::Empty
    } else if sweep > 0.0 {
        Sweep::Part {
            start,
            length: sweep,
        }
    } else {
        Sweep::Part {
            start: start + sweep,
            length: -sweep,
        }
    }
}

// Whether a part sweep starts at 1440 - n degrees and is l degrees long.
fn is_whole(start: f32, length: f32, n: u64, l: u64) -> bool
    ensures { result ≡ is_whole start length n l }
{
    n <= 2880 && 1 <= l && l <= 359 && 1440.0 - n as f32 == start && l as f32 == length
}

// The degrees of a part sweep, where they are whole.
fn degrees_of(s: Sweep) -> Option<Degrees>
    ensures { result ≡ degrees_of s }
{
    let Sweep::Part { start, length } = s else {
        return None;
    };
    let n = floats::ceil_size(1440.0 - start);
    let l = floats::ceil_size(length);
    if is_whole(start, length, n, l) {
        Some(Degrees {
            from: n % 360,
            length: l,
        })
    } else {
        None
    }
}

// The pie in a box, with start and sweep in degrees.
pub fn pie_in(x: i32, y: i32, w: u32, h: u32, start: i32, sweep: i32) -> Pie
    ensures { result ≡ pie_of x y w h start sweep }
{
    let oval = oval_in(x, y, w, h);
    let from = std::num::nearest_i32_to_f32(start);
    let sweep = sweep_of(from, std::num::nearest_i32_to_f32(sweep));
    let degrees = degrees_of(sweep);
    Pie {
        oval,
        sweep,
        degrees,
    }
}

// A pie of every direction: what has no sweep of its own, as a round fill, goes by it.
pub fn all_round() -> Pie
    ensures { result ≡ all_round }
{
    let oval = Oval {
        cx: 0.0,
        cy: 0.0,
        a: 0.0,
        b: 0.0,
    };
    Pie {
        oval,
        sweep: Sweep::All,
        degrees: None,
    }
}

// Which eighth of a half turn, from the right on, has what is so far up or down and to the right.
fn flank(up: f32, right: f32) -> u64
    ensures { result ≡ flank_of up right }
{
    let far = floats::abs(up);
    if right < 0.0 {
        if -right < far {
            return 2;
        }
        return 3;
    }
    if right < far {
        return 1;
    }
    0
}

// Which eighth of a turn, from 0 degrees on.
fn eighth(up: f32, right: f32) -> u64
    ensures { result ≡ eighth_of up right }
{
    let e = flank(up, right);
    if floats::is_sign_negative(up) {
        return 7 - e;
    }
    e
}

// Whether the angle of an offset is one of a part sweep's.
fn in_arc(start: f32, length: f32, dx: f32, dy: f32) -> bool
    ensures { result ≡ in_arc start length dx dy }
{
    let angle = angle::arctangent::arctangent(-dy, dx);
    floats::rem_euclid_360(angle - start) <= length
}

// How far past a sweep's start an eighth of a turn begins.
fn begins(from: u64, eighth: u64) -> u64
    requires { (from < 360) × (eighth ≤ 7) }
    ensures { result ≡ (from + 45 * eighth) % 360 }
{
    let at = from + 45 * eighth;
    if at < 360 {
        return at;
    }
    at - 360
}

// The same. An eighth of a turn that lies all in the sweep, or all past it, is not asked for the angle.
fn in_part(start: f32, length: f32, degrees: Option<Degrees>, dx: f32, dy: f32) -> bool
    requires { (degrees ≡ degrees_of (Part start length)) × (Domain (neg dy) dx) }
    ensures { result ≡ in_arc start length dx dy }
{
    if let Some(d) = degrees {
        let at = begins(d.from, eighth(-dy, dx));
        if at < 315 {
            if at + 45 <= d.length {
                return true;
            }
            if d.length < at {
                return false;
            }
        }
    }
    in_arc(start, length, dx, dy)
}

// point_in_sweep, of the offset from the centre.
fn in_sweep(s: Sweep, d: Option<Degrees>, dx: f32, dy: f32) -> bool
    requires { (is_all s ≡ false → d ≡ degrees_of s) × (is_all s ≡ false → lt (add binary32 (mul binary32 dx dx) (mul binary32 dy dy)) one ≡ false → Domain (neg dy) dx) }
    ensures { result ≡ in_sweep s dx dy }
{
    match s {
        Sweep::All => true,
        Sweep::Empty => false,
        Sweep::Part { start, length } => {
            if dx * dx + dy * dy < 1.0 {
                return true;
            }
            in_part(start, length, d, dx, dy)
        }
    }
}

// The first pixel of row y, from x on and before x1, that the sweep has (or that it has not); x1 if there is none.
pub fn next(p: Pie, y: u16, x: usize, x1: usize, taken: bool) -> usize
    requires { (x ≤ x1) × ((x1 ≤ 32767) × (Swept p x x1 y)) }
    ensures { Next (λ i. covers p i y) taken x x1 result }
{
    let o = p.oval;
    let s = p.sweep;
    let d = p.degrees;
    let dy = y as f32 - o.cy;
    for i in x..x1 {
        let dx = i as u16 as f32 - o.cx;
        if in_sweep(s, d, dx, dy) == taken {
            return i;
        }
    }
    x1
}
