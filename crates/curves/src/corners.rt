// Round corners: radii, and the four corners' ovals.
ghost use Rattle.std.specs.Prelude.{◌≡◌};
ghost use Rattle.curves.specs.Corners.{radius_of, inset_of, corners_of, corner_of};

use crate::oval::Oval;

// The centres' columns and rows, and the radii.
#[derive(Clone, Copy)]
pub struct Corners {
    pub left: f32,
    pub right: f32,
    pub top: f32,
    pub bottom: f32,
    pub rx: f32,
    pub ry: f32,
}

// The radius of an arc size along a side of the box.
pub fn radius(arc: u32, side: u32) -> f32
    ensures { result ≡ radius_of arc side }
{
    let n = arc.min(side);
    floats::max(std::num::nearest_u32_to_f32(n) / 2.0, 0.5)
}

// How far in from the corners a straight edge starts and ends: round(radius).
pub fn inset(radius: f32) -> u32
    ensures { result ≡ inset_of radius }
{
    floats::round_i32(radius).max(0) as u32
}

// The corners of the box whose first and last columns and rows these are.
pub fn corners_in(left: i32, top: i32, right: i32, bottom: i32, rx: f32, ry: f32) -> Corners
    ensures { result ≡ corners_of left top right bottom rx ry }
{
    Corners {
        left: std::num::nearest_i32_to_f32(left) + rx,
        right: std::num::nearest_i32_to_f32(right) - rx,
        top: std::num::nearest_i32_to_f32(top) + ry,
        bottom: std::num::nearest_i32_to_f32(bottom) - ry,
        rx,
        ry,
    }
}

// The oval of one corner.
pub fn corner(c: Corners, right: bool, bottom: bool) -> Oval
    ensures { result ≡ corner_of c right bottom }
{
    Oval {
        cx: if right { c.right } else { c.left },
        cy: if bottom { c.bottom } else { c.top },
        a: c.rx,
        b: c.ry,
    }
}
