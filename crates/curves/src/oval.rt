// Ovals: centre and half axes, carried together.
ghost use Rattle.std.specs.Prelude.{◌≡◌};
ghost use Rattle.curves.specs.Oval.{half_axis, oval_of};

#[derive(Clone, Copy)]
pub struct Oval {
    pub cx: f32,
    pub cy: f32,
    pub a: f32,
    pub b: f32,
}

fn half_axis(w: u32) -> f32
    ensures { result ≡ half_axis w }
{
    (std::num::nearest_u32_to_f32(w) - 1.0) / 2.0
}

// The oval in a box.
pub fn oval_in(x: i32, y: i32, w: u32, h: u32) -> Oval
    ensures { result ≡ oval_of x y w h }
{
    let a = half_axis(w);
    let b = half_axis(h);
    Oval {
        cx: std::num::nearest_i32_to_f32(x) + a,
        cy: std::num::nearest_i32_to_f32(y) + b,
        a,
        b,
    }
}
