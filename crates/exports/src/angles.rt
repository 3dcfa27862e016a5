// What oracle/angles links of angles: the functions as they are, one call each.
ghost use Rattle.std.specs.Prelude.{◌≡◌};
ghost use Rattle.angle.specs.Sine.{sine_of, cosine_of};
ghost use Rattle.angle.specs.Arctangent.{arctangent_of};

#[unsafe(no_mangle)]
pub extern "C" fn angle_sine_cosine(t: f32, sine: &mut f32, cosine: &mut f32)
    ensures { (sine.new ≡ sine_of t) × (cosine.new ≡ cosine_of t) }
{
    let p = angle::sine::sine_cosine(t);
    *sine = p.sine;
    *cosine = p.cosine;
}

#[unsafe(no_mangle)]
pub extern "C" fn angle_arctangent(up: f32, right: f32) -> f32
    ensures { result ≡ arctangent_of up right }
{
    angle::arctangent::arctangent(up, right)
}
