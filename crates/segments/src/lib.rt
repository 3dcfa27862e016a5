// Segments: what a canvas with a margin of one pixel has of them, kept or cut by Liang and Barsky in f64.
#![tactic(auto)]

ghost use Rattle.std.specs.Prelude.{◌≡◌};
ghost use Rattle.segments.specs.Cut.{near, inside, kept, narrowed, parameters, end, clip_segment};

// What is left of a segment: its entry and exit parameters.
#[derive(Clone, Copy)]
struct Part {
    enter: f64,
    leave: f64,
}

#[derive(Clone, Copy)]
pub struct Segment {
    pub x1: i32,
    pub y1: i32,
    pub x2: i32,
    pub y2: i32,
}

// Whether a column or row is one of a side of n pixels, or of its margin.
fn is_near(x: i32, n: u32) -> bool
    ensures { result ≡ near n x }
{
    if x < -1 {
        return false;
    }
    if x < 0 {
        return true;
    }
    x as u32 <= n
}

fn is_inside(x: i32, y: i32, width: u32, height: u32) -> bool
    ensures { result ≡ inside width height x y }
{
    if is_near(x, width) {
        return is_near(y, height);
    }
    false
}

// One side of the cut.
fn narrow(part: Part, p: f64, q: f64) -> Option<Part>
    ensures { result ≡ narrowed p q (Some part) }
{
    if p == 0.0 {
        if q < 0.0 {
            return None;
        }
        return Some(part);
    }
    let r = q / p;
    if p < 0.0 {
        if part.enter < r {
            return Some(Part { enter: r, ..part });
        }
        return Some(part);
    }
    if r < part.leave {
        return Some(Part { leave: r, ..part });
    }
    Some(part)
}

// The cut by the left, the right, the top and the bottom side, in this order.
fn parameters(x1: i32, y1: i32, x2: i32, y2: i32, width: u32, height: u32) -> Option<Part>
    ensures { result ≡ parameters x1 y1 x2 y2 width height }
{
    let fx = x1 as f64;
    let fy = y1 as f64;
    let dx = x2 as f64 - fx;
    let dy = y2 as f64 - fy;
    let whole = Part {
        enter: 0.0,
        leave: 1.0,
    };
    let left = narrow(whole, -dx, fx - -1.0)?;
    let right = narrow(left, dx, width as f64 - fx)?;
    let top = narrow(right, -dy, fy - -1.0)?;
    let bottom = narrow(top, dy, height as f64 - fy)?;
    if bottom.leave < bottom.enter {
        return None;
    }
    Some(bottom)
}

// A new end: the first end plus the delta times its parameter, rounded.
fn end_at(first: i32, second: i32, t: f64) -> i32
    ensures { result ≡ end first second t }
{
    let f = first as f64;
    let d = second as f64 - f;
    floats::round_i32_f64(f + d * t)
}

// Whether both ends are inside.
fn is_kept(x1: i32, y1: i32, x2: i32, y2: i32, width: u32, height: u32) -> bool
    ensures { result ≡ kept x1 y1 x2 y2 width height }
{
    if is_inside(x1, y1, width, height) {
        return is_inside(x2, y2, width, height);
    }
    false
}

// What is left of a segment, by its ends.
pub fn clip_segment(x1: i32, y1: i32, x2: i32, y2: i32, width: u32, height: u32) -> Option<Segment>
    ensures { result ≡ clip_segment x1 y1 x2 y2 width height }
{
    if is_kept(x1, y1, x2, y2, width, height) {
        return Some(Segment { x1, y1, x2, y2 });
    }
    let part = parameters(x1, y1, x2, y2, width, height)?;
    Some(Segment {
        x1: end_at(x1, x2, part.enter),
        y1: end_at(y1, y2, part.enter),
        x2: end_at(x1, x2, part.leave),
        y2: end_at(y1, y2, part.leave),
    })
}
