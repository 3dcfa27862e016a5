// What `draw` does with a word of each format. An ARGB word is taken whole: with a `Color` between, the loops take up to
// twice the instructions.
ghost use Rattle.std.specs.Prelude.{◌≡◌, false, ◌+◌, ◌%◌, ◌≤◌, ◌<◌};
ghost use Rattle.std.specs.Int.Bits.{bit_xor};
ghost use Rattle.words.specs.Format.{argb};
ghost use Rattle.words.specs.Word.{from_color, to_color};
ghost use Rattle.words.specs.Ink.{keeps_alpha};
ghost use Rattle.blending.specs.Blend.{rule_of, flip_word, blend_word};
ghost use Rattle.blending.specs.Inner.{faint};

use crate::{blend_bgr, blend_rgb, blend332, blend565, part_of};
use words::layout::{Abgr, Argb, Layout, Rgb8, Rgb332, Rgb565};
use words::{Color, level5_of, level6_of};

pub(crate) trait Drawn: Layout {
    // A word read as an ARGB word.
    fn argb(raw: u32) -> u32
        ensures { result ≡ from_color argb (to_color Self.form raw) };

    // The word that an ARGB word is stored as.
    fn store(source: u32) -> u32
        ensures { result ≡ from_color Self.form (to_color argb source) };

    // An ARGB word drawn over a word with XOR on.
    fn flip(source: u32, raw: u32) -> u32
        ensures { result ≡ flip_word Self.form (to_color argb source) raw };

    // The same with XOR off, by a rule.
    fn over(rule: u32, source: u32, raw: u32) -> u32
        ensures { result ≡ blend_word Self.form (rule_of rule) false (to_color argb source) raw };
}

// The word of a colour scaled whatever its alpha is, with alpha itself left out: 0 where it is 0.
fn faint_word<L: Layout>(source: u32) -> u32
    ensures { result ≡ from_color L.form (faint (to_color argb source)) }
{
    let a = (source / 16777216 % 256) as u8;
    L::word(Color {
        a: 0,
        r: part_of(a, (source / 65536 % 256) as u8),
        g: part_of(a, (source / 256 % 256) as u8),
        b: part_of(a, (source % 256) as u8),
    })
}

// XOR where alpha is not kept.
fn flip_bare<L: Layout>(source: u32, raw: u32) -> u32
    requires { keeps_alpha L.form ≡ false }
    ensures { result ≡ flip_word L.form (to_color argb source) raw }
{
    raw ^ faint_word::<L>(source)
}

// XOR where it is, with the faint word at hand: nothing where the ARGB word's is 0, and 255 else.
fn flip_solid(word: u32, source: u32, raw: u32) -> u32
    ensures clear { source < 16777216 → result ≡ raw }
    ensures seen { 16777216 ≤ source → result ≡ 4278190080 + bit_xor raw word % 16777216 }
{
    if source < 16777216 {
        return raw;
    }
    0xFF00_0000 + (raw ^ word) % 16777216
}

impl Drawn for Rgb332 {
    fn argb(raw: u32) -> u32 {
        0xFF00_0000 + (raw / 32 % 8 * 65536 + raw / 4 % 8 * 256) * 36 + raw % 4 * 85
    }

    fn store(source: u32) -> u32 {
        let r = source / 65536 % 256;
        let g = source / 256 % 256;
        let b = source % 256;
        (r * 7 + 127) / 255 * 32 + (g * 7 + 127) / 255 * 4 + (b * 3 + 127) / 255
    }

    fn flip(source: u32, raw: u32) -> u32 {
        flip_bare::<Rgb332>(source, raw)
    }

    fn over(rule: u32, source: u32, raw: u32) -> u32 {
        blend332(rule, source, raw)
    }
}

impl Drawn for Rgb565 {
    fn argb(raw: u32) -> u32 {
        let r = level5_of(raw / 2048);
        let g = level6_of(raw / 32);
        let b = level5_of(raw);
        0xFF00_0000 + r * 65536 + g * 256 + b
    }

    fn store(source: u32) -> u32 {
        source / 65536 % 256 / 8 * 2048 + source / 256 % 256 / 4 * 32 + source % 256 / 8
    }

    fn flip(source: u32, raw: u32) -> u32 {
        flip_bare::<Rgb565>(source, raw)
    }

    fn over(rule: u32, source: u32, raw: u32) -> u32 {
        blend565(rule, source, raw)
    }
}

impl Drawn for Rgb8 {
    fn argb(raw: u32) -> u32 {
        0xFF00_0000 + raw % 16777216
    }

    fn store(source: u32) -> u32 {
        source % 16777216
    }

    fn flip(source: u32, raw: u32) -> u32 {
        flip_bare::<Rgb8>(source, raw)
    }

    fn over(rule: u32, source: u32, raw: u32) -> u32 {
        blend_rgb(rule, source, raw, 0)
    }
}

// An ARGB word is read and stored as it is.
impl Drawn for Argb {
    fn argb(word: u32) -> u32 {
        word
    }

    fn store(word: u32) -> u32 {
        word
    }

    // Rgb8's word, where the bytes stand alike: ARGB's is taken for a turn of bytes, which costs a quarter more.
    fn flip(source: u32, raw: u32) -> u32 {
        flip_solid(faint_word::<Rgb8>(source), source, raw)
    }

    fn over(rule: u32, source: u32, raw: u32) -> u32 {
        blend_rgb(rule, source, raw, 0xFF00_0000)
    }
}

impl Drawn for Abgr {
    fn argb(raw: u32) -> u32 {
        raw / 16777216 * 16777216 + raw % 256 * 65536 + raw / 256 % 256 * 256 + raw / 65536 % 256
    }

    fn store(source: u32) -> u32 {
        let r = source / 65536 % 256;
        let b = source % 256;
        source / 16777216 * 16777216 + b * 65536 + source / 256 % 256 * 256 + r
    }

    fn flip(source: u32, raw: u32) -> u32 {
        flip_solid(faint_word::<Abgr>(source), source, raw)
    }

    fn over(rule: u32, source: u32, raw: u32) -> u32 {
        blend_bgr(rule, source, raw, 0xFF00_0000)
    }
}
