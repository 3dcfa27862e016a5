// What oracle/angles links of numbers: the helpers as they are, one call each.
ghost use Rattle.std.specs.Prelude.{◌≡◌};
ghost use Rattle.floats.specs.Degrees.{radians_of, rem_euclid360};
ghost use Rattle.floats.specs.Size.{abs_of, max_of, sign_of};
ghost use Rattle.floats.specs.Whole.{as_u8, ceil_size, round_as};

#[unsafe(no_mangle)]
pub extern "C" fn number_radians(x: f32) -> f32
    ensures { result ≡ radians_of x }
{
    floats::radians(x)
}

#[unsafe(no_mangle)]
pub extern "C" fn number_rem_euclid_360(x: f32) -> f32
    ensures { result ≡ rem_euclid360 x }
{
    floats::rem_euclid_360(x)
}

#[unsafe(no_mangle)]
pub extern "C" fn number_abs(x: f32) -> f32
    ensures { result ≡ abs_of x }
{
    floats::abs(x)
}

#[unsafe(no_mangle)]
pub extern "C" fn number_max(a: f32, b: f32) -> f32
    ensures { result ≡ max_of a b }
{
    floats::max(a, b)
}

#[unsafe(no_mangle)]
pub extern "C" fn number_is_sign_negative(x: f32) -> bool
    ensures { result ≡ sign_of x }
{
    floats::is_sign_negative(x)
}

#[unsafe(no_mangle)]
pub extern "C" fn number_as_u8(x: f32) -> u8
    ensures { result ≡ as_u8 x }
{
    floats::as_u8(x)
}

#[unsafe(no_mangle)]
pub extern "C" fn number_ceil_size(x: f32) -> u64
    ensures { result ≡ ceil_size x }
{
    floats::ceil_size(x)
}

#[unsafe(no_mangle)]
pub extern "C" fn number_round_i32(x: f32) -> i32
    ensures { result ≡ round_as 31 x }
{
    floats::round_i32(x)
}

#[unsafe(no_mangle)]
pub extern "C" fn number_round_i32_f64(x: f64) -> i32
    ensures { result ≡ round_as 31 x }
{
    floats::round_i32_f64(x)
}
