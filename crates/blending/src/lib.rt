// Blending: what drawing a colour over the word stored makes of it.
#![tactic(auto)]

ghost use Rattle.std.specs.Prelude.{◌≡◌, true, false, ◌%◌, ◌<◌};
ghost use Rattle.words.specs.Format.{format_of, rgb332, rgb565, argb, abgr};
ghost use Rattle.words.specs.Word.{to_color};
ghost use Rattle.words.specs.Ink.{plot_ink};
ghost use Rattle.blending.specs.Blend.{part, scaled, factor, others, rule2, rule_of, blend_word, setting};
ghost use Rattle.blending.specs.Blend.{mix as mix_by};
ghost use Rattle.blending.specs.Inner.{mixed, Laid};

mod cut;
mod drawn;
pub mod loops;

use words::{Color, Ink, level5_of, level6_of};

pub(crate) fn part_of(a: u8, c: u8) -> u8
    ensures { result ≡ part a c }
{
    ((c as u32 * a as u32 + 127) / 255) as u8
}

// The colour that XOR draws for one that is let through in part.
pub fn scaled_by_alpha(color: Color) -> Color
    ensures { result ≡ scaled color }
{
    match color.a {
        0 | 255 => color,
        a => Color {
            a,
            r: part_of(a, color.r),
            g: part_of(a, color.g),
            b: part_of(a, color.b),
        },
    }
}

// The ink of drawing with XOR on.
pub fn blend_ink(format: u32, color: Color) -> Ink
    ensures { result ≡ plot_ink (format_of format) true (scaled color) }
{
    words::plot_ink(format, true, scaled_by_alpha(color))
}

// The channels of a blend.
#[derive(Clone, Copy)]
struct Mixed {
    r: u32,
    g: u32,
    b: u32,
}

// An alpha, its factor, and the rest of 1, which falls to what is behind.
#[derive(Clone, Copy)]
struct Shares {
    alpha: u8,
    own: f32,
    rest: f32,
}

fn shares_of(a: u32) -> Shares
    ensures { (result.alpha ≡ a % 256) × ((result.own ≡ factor (a % 256)) × (result.rest ≡ others (a % 256))) }
{
    let alpha = (a % 256) as u8;
    let own = alpha as f32 / 255.0;
    Shares {
        alpha,
        own,
        rest: 1.0 - own,
    }
}

// Rule 2 of one channel over another. In 16 bits the compiler divides several at a time.
fn nearest(alpha: u8, c: u32, bg: u32) -> u32
    ensures { (result ≡ mix_by rule2 alpha (c % 256) (bg % 256)) × (result < 256) }
{
    let a = alpha as u16;
    let own = (c % 256) as u16 * a;
    let rest = (bg % 256) as u16 * (255 - a);
    ((own + rest + 127) / 255) as u32
}

// One channel over another, by a rule.
fn mix(rule: u32, k: Shares, c: u32, bg: u32) -> u32
    ensures { (result ≡ mixed (rule_of rule) k.alpha k.own k.rest (c % 256) (bg % 256)) × (result < 256) }
{
    if rule == 2 {
        return nearest(k.alpha, c, bg);
    }
    cut::cut(((c % 256) as u8) as f32 * k.own + ((bg % 256) as u8) as f32 * k.rest)
}

// The channels of an ARGB word over the low bytes of three others.
fn lay(rule: u32, source: u32, r: u32, g: u32, b: u32) -> Mixed
    ensures { Laid (rule_of rule) source r g b result }
{
    let k = shares_of(source / 16777216);
    Mixed {
        r: mix(rule, k, source / 65536, r),
        g: mix(rule, k, source / 256, g),
        b: mix(rule, k, source, b),
    }
}

// An ARGB word over a word of 332.
pub fn blend332(rule: u32, source: u32, raw: u32) -> u32
    ensures { result ≡ blend_word rgb332 (rule_of rule) false (to_color argb source) raw }
{
    let m = lay(
        rule,
        source,
        raw / 32 % 8 * 36,
        raw / 4 % 8 * 36,
        raw % 4 * 85,
    );
    (m.r * 7 + 127) / 255 * 32 + (m.g * 7 + 127) / 255 * 4 + (m.b * 3 + 127) / 255
}

// An ARGB word over a word of 565.
pub fn blend565(rule: u32, source: u32, raw: u32) -> u32
    ensures { result ≡ blend_word rgb565 (rule_of rule) false (to_color argb source) raw }
{
    let r = level5_of(raw / 2048);
    let g = level6_of(raw / 32);
    let b = level5_of(raw);
    let m = lay(rule, source, r, g, b);
    m.r / 8 * 2048 + m.g / 4 * 32 + m.b / 8
}

// An ARGB word over a word of Rgb8, with no bits set, or of ARGB, with alpha's bits set. Where the compiler does not
// know these bits, it takes a loop's words whole, and several at a time.
pub fn blend_rgb(rule: u32, source: u32, raw: u32, set: u32) -> u32
    ensures { result ≡ setting set (blend_word argb (rule_of rule) false (to_color argb source)) raw }
{
    let old = raw | set;
    let m = lay(rule, source, old / 65536, old / 256, old);
    (m.r * 65536 + m.g * 256 + m.b) | set
}

// The same over a word of ABGR.
pub fn blend_bgr(rule: u32, source: u32, raw: u32, set: u32) -> u32
    ensures { result ≡ setting set (blend_word abgr (rule_of rule) false (to_color argb source)) raw }
{
    let old = raw | set;
    let m = lay(rule, source, old, old / 256, old / 65536);
    (m.b * 65536 + m.g * 256 + m.r) | set
}
