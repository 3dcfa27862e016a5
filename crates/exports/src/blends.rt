// What oracle/blends links: the functions of blending as they are, one call each.
ghost use Rattle.std.specs.Prelude.{◌≡◌, true, false};
ghost use Rattle.words.specs.Format.{format_of, rgb332, rgb565, argb, abgr};
ghost use Rattle.words.specs.Word.{to_color};
ghost use Rattle.words.specs.Ink.{plot_ink};
ghost use Rattle.blending.specs.Blend.{scaled, rule_of, blend_word, setting};

#[unsafe(no_mangle)]
pub extern "C" fn blending_332(rule: u32, source: u32, raw: u32) -> u32
    ensures { result ≡ blend_word rgb332 (rule_of rule) false (to_color argb source) raw }
{
    blending::blend332(rule, source, raw)
}

#[unsafe(no_mangle)]
pub extern "C" fn blending_565(rule: u32, source: u32, raw: u32) -> u32
    ensures { result ≡ blend_word rgb565 (rule_of rule) false (to_color argb source) raw }
{
    blending::blend565(rule, source, raw)
}

#[unsafe(no_mangle)]
pub extern "C" fn blending_rgb(rule: u32, source: u32, raw: u32, set: u32) -> u32
    ensures { result ≡ setting set (blend_word argb (rule_of rule) false (to_color argb source)) raw }
{
    blending::blend_rgb(rule, source, raw, set)
}

#[unsafe(no_mangle)]
pub extern "C" fn blending_bgr(rule: u32, source: u32, raw: u32, set: u32) -> u32
    ensures { result ≡ setting set (blend_word abgr (rule_of rule) false (to_color argb source)) raw }
{
    blending::blend_bgr(rule, source, raw, set)
}

// The two masks of drawing an ARGB word with XOR on.
#[unsafe(no_mangle)]
pub extern "C" fn blending_ink(format: u32, source: u32, keep: &mut u32, flip: &mut u32)
    ensures { (keep.new ≡ (plot_ink (format_of format) true (scaled (to_color argb source))).keep)
        × (flip.new ≡ (plot_ink (format_of format) true (scaled (to_color argb source))).flip) }
{
    let ink = blending::blend_ink(format, words::to_color(3, source));
    *keep = ink.keep;
    *flip = ink.flip;
}
