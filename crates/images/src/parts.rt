// What a call shows of a box: a part of a canvas, and where on a source its pixels are taken from.
ghost use Rattle.std.specs.Prelude.{◌≡◌, ◌*◌, ◌≤◌};
ghost use Rattle.images.specs.Parts.{Placed, Shows};

use canvas::Clip;
use canvas::span::{lift, shown_in};
use pixels::Canvas;

// w by h pixels of a canvas from x and y on, and of a source from sx and sy on.
#[derive(Clone, Copy)]
pub(crate) struct Part {
    pub x: usize,
    pub y: usize,
    pub w: usize,
    pub h: usize,
    pub sx: usize,
    pub sy: usize,
}

impl Part {
    // How many pixels it has.
    pub(crate) fn pixels(self) -> u64
        requires wide { self.w ≤ 32767 }
        requires high { self.h ≤ 32767 }
        ensures { result ≡ self.h * self.w }
    {
        (self.h * self.w) as u64
    }
}

// The part of the canvas that a box of w by h pixels at dx and dy shows, whose source starts at sx and sy; one of no pixels
// where it shows nothing.
pub(crate) fn shown(
    canvas: Canvas,
    source: Canvas,
    dx: i32,
    dy: i32,
    sx: i32,
    sy: i32,
    w: u32,
    h: u32,
    clip: Clip,
) -> Part
    ensures placed { Placed canvas source result }
    ensures shows { Shows canvas source dx dy sx sy w h clip result }
{
    let p = lift(dx);
    let q = lift(dy);
    let u = lift(sx);
    let v = lift(sy);
    let xs = shown_in(p, u, w, source.width, clip.x, clip.width, canvas.width);
    let ys = shown_in(q, v, h, source.height, clip.y, clip.height, canvas.height);
    if xs.from == xs.to || ys.from == ys.to {
        return Part {
            x: 0,
            y: 0,
            w: 0,
            h: 0,
            sx: 0,
            sy: 0,
        };
    }
    Part {
        x: xs.from,
        y: ys.from,
        w: xs.to - xs.from,
        h: ys.to - ys.from,
        sx: (xs.from as u64 + u - p) as usize,
        sy: (ys.from as u64 + v - q) as usize,
    }
}
