// Sine and cosine: the angle's size brought near 0 by quarters, and two polynomials of the rest, in f64.
ghost use Rattle.std.specs.Prelude.{◌≡◌, ◌%◌, ◌<◌, ◌≤◌, not, T, if◌then◌else◌, is_nan, nat_eq, to_bits};
ghost use Rattle.std.specs.Float.{binary64};
ghost use Rattle.std.specs.Float.Ieee.{neg};
ghost use Rattle.angle.specs.Meaning.{placed};
ghost use Rattle.angle.specs.Sine.{larger_of, smaller_of, size_of, counted_of, off_of, sized_of, sine_from, cosine_from, narrow_of, sine_cosine_of};

// The rest's sine, from the rest and its square.
fn sine_from(r: f64, z: f64) -> f64
    ensures { result ≡ sine_from r z }
{
    let x3 = r * z;
    (r - x3 * 0.16666654943701084) + (x3 * z) * (0.008332178146138854 - z * 0.00019517298981385725)
}

// The rest's cosine, from its square.
fn cosine_from(z: f64) -> f64
    ensures { result ≡ cosine_from z }
{
    let z2 = z * z;
    ((1.0 - z * 0.49999999725108224) + z2 * 0.041666623324344516)
        - (z2 * z) * (0.001388676379437604 - z * 0.000024390450703564542)
}

// d, from 2^-126 up to 2, rounded to an f32. What is taken off is the exponent's 896 less the half that rounds.
fn narrow(d: f64) -> f32
    requires { (0x3810_0000_0000_0000 ≤ to_bits binary64 d) × (to_bits binary64 d < 0x4000_0000_0000_0000) }
    ensures { result ≡ narrow_of d }
{
    f32::from_bits(((f64::to_bits(d) - 0x37ff_ffff_f000_0000) / 0x2000_0000) as u32)
}

// The larger of the two; b where a is a NaN.
fn larger(a: f32, b: f32) -> f32
    ensures { result ≡ larger_of a b }
{
    if a > b {
        return a;
    }
    b
}

// The smaller of the two; b where a is a NaN.
fn smaller(a: f32, b: f32) -> f32
    ensures { result ≡ smaller_of a b }
{
    if a <= b {
        return a;
    }
    b
}

// The size of t, held to 2^-12 from below and to 26 from above.
fn size_of(t: f32) -> f32
    ensures { result ≡ size_of t }
{
    smaller(larger(-t, larger(t, 0.000244140625)), 26.0)
}

// The quarters nearest to x, with 1.5 * 2^52: there a sum's last digit is 1.
fn counted(x: f64) -> f64
    ensures { result ≡ counted_of x }
{
    x * 0.6366197723675814 + 6755399441055744.0
}

fn sized(d: f64) -> f64
    ensures { result ≡ sized_of d }
{
    if d < 0.0 {
        return -d;
    }
    d
}

// What is left of x by j right angles.
fn off(x: f64, j: f64) -> f64
    ensures { result ≡ off_of x j }
{
    (x - j * 1.5707963267948912) - j * 0.000000000000005329070518200751
}

// y, with a minus where n is odd: an f32's sign is its first bit.
fn turned(n: u32, y: f32) -> f32
    requires { T (not (is_nan y)) }
    ensures { result ≡ (if nat_eq (n % 2) 0 then y else neg y) }
{
    f32::from_bits(std::num::wrapping_add_u32(f32::to_bits(y), n % 2 * 0x8000_0000))
}

// s at an even quarter, and c at an odd one.
fn even_or_odd(k: u32, s: f32, c: f32) -> f32
    ensures { result ≡ (if nat_eq (k % 2) 0 then s else c) }
{
    if k % 2 == 0 {
        return s;
    }
    c
}

// s and c are the rest's sine and cosine, placed by k mod 4, with one minus more where n is odd.
fn placed_at(k: u32, n: u32, s: f32, c: f32) -> f32
    requires { T (not (is_nan s)) × T (not (is_nan c)) }
    ensures { result ≡ (if nat_eq (n % 2) 0 then placed neg (k % 4) s c else neg (placed neg (k % 4) s c)) }
{
    turned(k / 2 + n % 2, even_or_odd(k, s, c))
}

#[derive(Clone, Copy)]
pub struct SineCosine {
    pub sine: f32,
    pub cosine: f32,
}

// The sine and the cosine of t, which is in radians.
pub fn sine_cosine(t: f32) -> SineCosine
    ensures { result ≡ sine_cosine_of t }
{
    let x = size_of(t);
    let w = x as f64;
    let y = counted(w);
    let k = (f64::to_bits(y) % 4) as u32;
    let d = off(w, y - 6755399441055744.0);
    let r = sized(d);
    let z = r * r;
    let s = turned(u32::from(d < 0.0), narrow(sine_from(r, z)));
    let c = narrow(cosine_from(z));
    let v = placed_at(k, u32::from(t < 0.0), s, c);
    let cosine = placed_at(k + 1, 0, s, c);
    if x <= 0.000244140625 {
        return SineCosine { sine: t, cosine };
    }
    SineCosine { sine: v, cosine }
}
