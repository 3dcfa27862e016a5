// The formats: how each stores a colour in a word, and reads a word.
ghost use Rattle.std.specs.Prelude.{◌≡◌};
ghost use Rattle.words.specs.Format.{Format, rgb332, rgb565, rgb8, argb, abgr};
ghost use Rattle.words.specs.Word.{from_color, to_color};

use crate::{Color, level5_of, level6_of};

pub trait Layout {
    // Which format it is.
    ghost form: { Format };

    fn word(color: Color) -> u32
        ensures { result ≡ from_color form color };

    fn color(raw: u32) -> Color
        ensures { result ≡ to_color form raw };
}

pub struct Rgb332;

impl Layout for Rgb332 {
    ghost form = { rgb332 };

    fn word(color: Color) -> u32 {
        let r = (color.r as u32 * 7 + 127) / 255;
        let g = (color.g as u32 * 7 + 127) / 255;
        let b = (color.b as u32 * 3 + 127) / 255;
        r * 32 + g * 4 + b
    }

    fn color(raw: u32) -> Color {
        let r = (raw / 32 % 8 * 36) as u8;
        let g = (raw / 4 % 8 * 36) as u8;
        let b = (raw % 4 * 85) as u8;
        Color { a: 255, r, g, b }
    }
}

pub struct Rgb565;

impl Layout for Rgb565 {
    ghost form = { rgb565 };

    fn word(color: Color) -> u32 {
        let r = color.r as u32 / 8;
        let g = color.g as u32 / 4;
        let b = color.b as u32 / 8;
        r * 2048 + g * 32 + b
    }

    fn color(raw: u32) -> Color {
        let r = level5_of(raw / 2048) as u8;
        let g = level6_of(raw / 32) as u8;
        let b = level5_of(raw) as u8;
        Color { a: 255, r, g, b }
    }
}

pub struct Rgb8;

impl Layout for Rgb8 {
    ghost form = { rgb8 };

    fn word(color: Color) -> u32 {
        u32::from_be_bytes([0, color.r, color.g, color.b])
    }

    fn color(raw: u32) -> Color {
        let [_, r, g, b] = raw.to_be_bytes();
        Color { a: 255, r, g, b }
    }
}

pub struct Argb;

impl Layout for Argb {
    ghost form = { argb };

    fn word(color: Color) -> u32 {
        u32::from_be_bytes([color.a, color.r, color.g, color.b])
    }

    fn color(raw: u32) -> Color {
        let [a, r, g, b] = raw.to_be_bytes();
        Color { a, r, g, b }
    }
}

pub struct Abgr;

impl Layout for Abgr {
    ghost form = { abgr };

    fn word(color: Color) -> u32 {
        u32::from_le_bytes([color.r, color.g, color.b, color.a])
    }

    fn color(raw: u32) -> Color {
        let [r, g, b, a] = raw.to_le_bytes();
        Color { a, r, g, b }
    }
}
