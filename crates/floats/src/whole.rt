// Whole numbers out of floats: the Rust's `round` and `ceil`, and its casts, which saturate.
ghost use Rattle.std.specs.Prelude.{◌≡◌, ◌≤◌, true, false, ◌&&◌, pos, if◌then◌else◌};
ghost use Rattle.std.specs.Float.{fin};
ghost use Rattle.std.specs.Float.Ieee.{lt};
ghost use Rattle.floats.specs.Size.{plus_zero};
ghost use Rattle.floats.specs.Whole.{as_u8, round_size, round_as, lifted, ceil_size};

// x as u8
pub fn as_u8(x: f32) -> u8
    ensures { result ≡ as_u8 x }
{
    if x >= 256.0 {
        return 255;
    }
    if x >= 1.0 {
        return std::num::truncating_f32_to_u64(x) as u8;
    }
    0
}

// x.ceil() as i64 of what is not negative, and 0 of the rest: a size. From 2^24 on an f32 is whole.
pub fn ceil_size(x: f32) -> u64
    ensures { result ≡ ceil_size x }
{
    if x >= 9223372036854775808.0 {
        return 0x7fff_ffff_ffff_ffff;
    }
    if x >= 1.0 {
        let n = std::num::truncating_f32_to_u64(x);
        if n < 0x100_0000 {
            if (n as f32) < x {
                return n + 1;
            }
        }
        return n;
    }
    if x > 0.0 {
        return 1;
    }
    0
}

// The size of x.round(), and 2^31 from there on. Doubling is exact, and halves show as odd numbers.
fn round_size(x: f64) -> u64
    ensures { (result ≡ round_size 0x8000_0000 x) × (result ≤ 0x8000_0000) }
{
    if x >= 2147483648.0 {
        return 0x8000_0000;
    }
    if x <= -2147483648.0 {
        return 0x8000_0000;
    }
    if x > 0.0 {
        return (std::num::truncating_f64_to_u64(x * 2.0) + 1) / 2;
    }
    if x < 0.0 {
        return (std::num::truncating_f64_to_u64(-x * 2.0) + 1) / 2;
    }
    0
}

// x.round() as i32
pub fn round_i32_f64(x: f64) -> i32
    ensures { result ≡ round_as 31 x }
{
    let n = round_size(x);
    if x < 0.0 {
        return (0 - (n as i64)) as i32;
    }
    if n > 2147483647 {
        return 2147483647;
    }
    n as i32
}

// x where it is below 2^31 in size, and 0 elsewhere.
fn held(x: f32) -> f32
    ensures { result ≡ (if lt (fin true 1 (pos 31)) x && lt x (fin false 1 (pos 31)) then x else plus_zero) }
{
    if x > -2147483648.0 {
        if x < 2147483648.0 {
            return x;
        }
    }
    0.0
}

// 2^31 more than x.round() as i32. A part in 2^40 takes a half away from zero and moves no other f32 past one; the sum's last
// digit stands at 1.
pub fn round_lifted(x: f32) -> u32
    ensures { result ≡ lifted (round_as 31 x) }
{
    let y = held(x) as f64 * 1.0000000000009095 + 6755401588539392.0;
    let n = (f64::to_bits(y) % 0x1_0000_0000) as u32;
    if x >= 2147483648.0 {
        return 0xffff_ffff;
    }
    if x <= -2147483648.0 {
        return 0;
    }
    n
}

// x.round() as i32
pub fn round_i32(x: f32) -> i32
    ensures { result ≡ round_as 31 x }
{
    (round_lifted(x) as i64 - 2147483648) as i32
}
