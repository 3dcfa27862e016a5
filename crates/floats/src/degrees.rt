// Degrees: into radians, and into one turn.
ghost use Rattle.std.specs.Prelude.{◌≡◌, ◌*◌, ◌%◌, ◌<◌, false, pos};
ghost use Rattle.std.specs.Float.{fin, binary32};
ghost use Rattle.std.specs.Float.Ieee.{lt, rem, div, of_int};
ghost use Rattle.floats.specs.Degrees.{radians_of, rem_euclid360, turn};

// By the f32 of bits 3C8EFA35.
pub fn radians(x: f32) -> f32
    ensures { result ≡ radians_of x }
{
    x.to_radians()
}

// n * k 32768ths of a degree, by a turn, which is 11796480 of them.
fn in_turn(n: u64, k: u64) -> f32
    requires { k < 11796480 }
    ensures { result ≡ div binary32 (of_int binary32 (pos (n * k % 11796480))) (fin false 1 (pos 15)) }
{
    (n % 11796480 * k % 11796480) as f32 / 32768.0
}

// y % 360.0 from 360 on. From 2^8 on an f32 is a whole number of 2^-15, from 2^48 on of 2^25, from 2^88 on of 2^65, so what
// is cut is exact: y is that number of 32768ths of a degree, or 2^40 or 2^80 times it, and by a turn these powers leave
// 8912896 and 1048576. An infinity leaves a NaN.
fn far_rest(y: f32) -> f32
    requires { lt y turn ≡ false }
    ensures { result ≡ rem binary32 y turn }
{
    if y < 562949953421312.0 {
        return in_turn(std::num::truncating_f32_to_u64(y * 32768.0), 1);
    }
    if y < 618970019642690137449562112.0 {
        return in_turn(std::num::truncating_f32_to_u64(y / 33554432.0), 8912896);
    }
    let z = y / 36893488147419103232.0;
    if z < 18446744073709551616.0 {
        return in_turn(std::num::truncating_f32_to_u64(z), 1048576);
    }
    y - y
}

// The same, sooner for the angles of a pie.
fn rest(y: f32) -> f32
    requires { lt y turn ≡ false }
    ensures { result ≡ rem binary32 y turn }
{
    if y < 720.0 {
        return y - 360.0;
    }
    if y < 1080.0 {
        return y - 720.0;
    }
    if y < 1440.0 {
        return y - 1080.0;
    }
    far_rest(y)
}

// x.rem_euclid(360.0)
pub fn rem_euclid_360(x: f32) -> f32
    ensures { result ≡ rem_euclid360 x }
{
    if x >= 0.0 {
        if x < 360.0 {
            return x;
        }
        return rest(x);
    }
    if x > -360.0 {
        return x + 360.0;
    }
    let r = -rest(-x);
    if r < 0.0 {
        return r + 360.0;
    }
    r
}
