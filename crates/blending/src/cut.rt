// A float cut to a byte, without a branch.
ghost use Rattle.std.specs.Prelude.{◌≡◌};
ghost use Rattle.floats.specs.Whole.{as_u8};
ghost use Rattle.blending.specs.Inner.{raised, lowered};

fn at_least_0(x: f32) -> f32
    ensures { result ≡ raised x }
{
    if x > 0.0 {
        return x;
    }
    0.0
}

fn at_most_255(x: f32) -> f32
    ensures { result ≡ lowered x }
{
    if x < 255.0 {
        return x;
    }
    255.0
}

// x as u8: floats from 2^23 on are whole, so the sum's low bits are the nearest whole number, or the one above the cut.
pub(crate) fn cut(x: f32) -> u32
    ensures { result ≡ as_u8 x }
{
    let held = at_most_255(at_least_0(x));
    let n = f32::to_bits(held + 8388608.0) % 512;
    if (n as u16) as f32 > held {
        return n - 1;
    }
    n
}
