// The arctangent, in f32: the ratio, one of four known angles, an odd polynomial, the quadrant.
ghost use Rattle.std.specs.Prelude.{◌≡◌};
ghost use Rattle.angle.specs.Arctangent.{even_of, odd_of, less_of, of_ratio, direction_of, arctangent_of};

// The first, third, .. of eleven coefficients.
fn even(z: f32, w: f32) -> f32
    ensures { result ≡ even_of z w }
{
    let p8 = 0.049768779427 + w * 0.016285819933;
    let p6 = 0.066610731184 + w * p8;
    let p4 = 0.090908870101 + w * p6;
    let p2 = 0.14285714924 + w * p4;
    z * (0.33333334327 + w * p2)
}

// The others, which are taken off.
fn odd(w: f32) -> f32
    ensures { result ≡ odd_of w }
{
    let p7 = 0.058335702866 + w * 0.036531571299;
    let p5 = 0.076918758452 + w * p7;
    let p3 = 0.11111110449 + w * p5;
    w * (0.20000000298 + w * p3)
}

// What the angle whose tangent is x is less than x.
fn less(x: f32) -> f32
    ensures { result ≡ less_of x }
{
    let z = x * x;
    let w = z * z;
    x * (even(z, w) - odd(w))
}

// The angle, in radians, of a ratio that is not negative.
fn of_ratio(q: f32) -> f32
    ensures { result ≡ of_ratio q }
{
    if q < 0.4375 {
        return q - less(q);
    }
    if q < 0.6875 {
        let x = (2.0 * q - 1.0) / (2.0 + q);
        return 0.46364760399 - ((less(x) - 0.0000000050121582440) - x);
    }
    if q < 1.1875 {
        let x = (q - 1.0) / (q + 1.0);
        return 0.78539812565 - ((less(x) - 0.000000037748947079) - x);
    }
    if q < 2.4375 {
        let x = (q - 1.5) / (1.0 + 1.5 * q);
        return 0.98279368877 - ((less(x) - 0.000000034473217170) - x);
    }
    let x = -(1.0 / q);
    1.5707962513 - ((less(x) - 0.000000075497894159) - x)
}

// Radians, of the point that is `up` up and `right` to the right.
fn direction(up: f32, right: f32) -> f32
    ensures { result ≡ direction_of up right }
{
    if up == 0.0 {
        if floats::is_sign_negative(right) {
            if floats::is_sign_negative(up) {
                return -3.14159274101257324;
            }
            return 3.14159274101257324;
        }
        return up;
    }
    if right == 0.0 {
        if up < 0.0 {
            return -1.57079637050628662;
        }
        return 1.57079637050628662;
    }
    let a = of_ratio(floats::abs(up / right));
    if right < 0.0 {
        let b = a + 0.0000000874227765;
        if up < 0.0 {
            return b - 3.14159274101257324;
        }
        return 3.14159274101257324 - b;
    }
    if up < 0.0 {
        return -a;
    }
    a
}

// The angle, in degrees, of the point that is `up` up and `right` to the right.
pub fn arctangent(up: f32, right: f32) -> f32
    ensures { result ≡ arctangent_of up right }
{
    direction(up, right) * 57.295779513082320876
}
