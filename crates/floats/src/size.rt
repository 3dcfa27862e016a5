// A float's size and its sign.
ghost use Rattle.std.specs.Prelude.{◌≡◌};
ghost use Rattle.floats.specs.Size.{abs_of, max_of, sign_of};

// |x|
pub fn abs(x: f32) -> f32
    ensures { result ≡ abs_of x }
{
    x.abs()
}

// a.max(b)
pub fn max(a: f32, b: f32) -> f32
    ensures { result ≡ max_of a b }
{
    if a < b {
        return b;
    }
    if a != a {
        return b;
    }
    a
}

// x.is_sign_negative(), and false for a NaN: a zero's sign shows in its reciprocal.
pub fn is_sign_negative(x: f32) -> bool
    ensures { result ≡ sign_of x }
{
    if x == 0.0 {
        return 1.0 / x < 0.0;
    }
    x < 0.0
}
