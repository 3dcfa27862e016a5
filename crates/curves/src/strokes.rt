// Strokes: how many steps one has, and the point at each.
ghost use Rattle.std.specs.Prelude.{◌≡◌, ◌+◌, ◌*◌, ◌≤◌, max, map, pos};
ghost use Rattle.std.specs.Float.{binary32};
ghost use Rattle.std.specs.Float.Ieee.{of_int, add, mul, div};
ghost use Rattle.floats.specs.Whole.{lifted};
ghost use Rattle.angle.specs.Sine.{sine_of, cosine_of};
ghost use Rattle.curves.specs.Strokes.{steps_of, x_at, y_at, angles_from, spots_from, columns, rows};

use crate::oval::Oval;

// The most steps on a canvas of these sides.
fn most_steps(width: u32, height: u32) -> u64
    ensures { result ≡ 16 * max (width + height) 1 }
{
    let sides = u64::from(width) + u64::from(height);
    16 * sides.max(1)
}

// The steps of a stroke, whose sweep is in radians, on a canvas of these sides.
pub fn steps(o: Oval, sweep: f32, width: u32, height: u32) -> u64
    ensures { (result ≡ steps_of o sweep width height) × (1 ≤ result) × (result ≤ 16 * max (width + height) 1) }
{
    let radius = floats::max(floats::max(o.a, o.b), 1.0);
    let n = floats::ceil_size(floats::abs(sweep) * radius) * 2;
    n.max(1).min(most_steps(width, height))
}

// The f32 nearest to n, by the machine's own cast where that loses nothing.
fn nearest_to(n: u32) -> f32
    ensures { result ≡ of_int binary32 (pos n) }
{
    if n <= 0x100_0000 {
        return n as f32;
    }
    std::num::nearest_u32_to_f32(n)
}

// The angle at step i of so many.
fn angle_at(start: f32, sweep: f32, i: u32, by: f32) -> f32
    requires { i ≤ 0x100_0000 }
    ensures { result ≡ add binary32 start (div binary32 (mul binary32 sweep (of_int binary32 (pos i))) by) }
{
    start + sweep * (i as i32 as f32) / by
}

// The angles at 16 steps, from step i on.
fn angles(start: f32, sweep: f32, i: u32, steps: u32, ts: &mut [f32; 16])
    requires { i ≤ 0x10_0000 }
    ensures { ts.new ≡ angles_from start sweep steps i 16 }
{
    let by = nearest_to(steps);
    for j in 0..16u32 {
        ts[j as usize] = angle_at(start, sweep, i + j, by);
    }
}

// The sines and the cosines of 16 angles.
fn sines_of(ts: &[f32; 16], ss: &mut [f32; 16], cs: &mut [f32; 16])
    ensures { (ss.new ≡ map sine_of ts.now) × (cs.new ≡ map cosine_of ts.now) }
{
    for j in 0..16 {
        let t = angle::sine::sine_cosine(ts[j]);
        ss[j] = t.sine;
        cs[j] = t.cosine;
    }
}

// The points of 16 sines and cosines, lifted.
fn spots_of(o: Oval, ss: &[f32; 16], cs: &[f32; 16], ps: &mut [u32; 16], qs: &mut [u32; 16])
    ensures ps_after { ps.new ≡ map (λ c. lifted (x_at o c)) cs.now }
    ensures qs_after { qs.new ≡ map (λ s. lifted (y_at o s)) ss.now }
{
    for j in 0..16 {
        ps[j] = floats::round_lifted(o.cx + o.a * cs[j]);
        qs[j] = floats::round_lifted(o.cy - o.b * ss[j]);
    }
}

// The points at 16 steps, from step i on, lifted; start and sweep are in radians. A loop for each part of the work lets the
// machine do several at once.
pub fn spots_from(
    o: Oval,
    start: f32,
    sweep: f32,
    i: u32,
    steps: u32,
    ps: &mut [u32; 16],
    qs: &mut [u32; 16],
)
    requires { i ≤ 0x10_0000 }
    ensures { (ps.new ≡ columns (spots_from o start sweep steps i 16)) × (qs.new ≡ rows (spots_from o start sweep steps i 16)) }
{
    let mut ts = [0.0f32; 16];
    let mut ss = [0.0f32; 16];
    let mut cs = [0.0f32; 16];
    angles(start, sweep, i, steps, &mut ts);
    sines_of(&ts, &mut ss, &mut cs);
    spots_of(o, &ss, &cs, ps, qs);
}
