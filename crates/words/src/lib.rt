// The words of a pixel: colours, storing, reading and XOR by format number.
#![tactic(auto)]

ghost use Rattle.std.specs.Prelude.{◌≡◌, ◌+◌, ◌%◌, ◌<◌};
ghost use Rattle.words.specs.Format.{format_of, bytes_per_pixel};
ghost use Rattle.words.specs.Word.{from_color, to_color, level5, level6};
ghost use Rattle.words.specs.Table.{fives, sixes, back332, through332, through565};
ghost use Rattle.words.specs.Ink.{bare, ink, inked, xor_ink, plot_ink};
ghost use Rattle.words.specs.Invert.{invert_ink};

mod colors;
pub mod layout;
mod levels;

use layout::{Abgr, Argb, Layout, Rgb8, Rgb332, Rgb565};

#[derive(Clone, Copy, Default)]
pub struct Color {
    pub a: u8,
    pub r: u8,
    pub g: u8,
    pub b: u8,
}

// What a plot does to the word stored: it keeps some bits of it, and then flips some.
#[derive(Clone, Copy)]
pub struct Ink {
    pub keep: u32,
    pub flip: u32,
}

// How many bytes a pixel has: none where the number is no format's. Of an arm for each number the compiler makes a table, which
// takes six instructions less than a range.
pub fn bytes_per_pixel(format: u32) -> usize
    ensures { result ≡ bytes_per_pixel (format_of format) }
{
    match format {
        0 => 1,
        1 => 2,
        2 => 4,
        3 => 4,
        4 => 4,
        _ => 0,
    }
}

// The word that a colour is stored as.
pub fn from_color(format: u32, color: Color) -> u32
    ensures { result ≡ from_color (format_of format) color }
{
    match format {
        0 => Rgb332::word(color),
        1 => Rgb565::word(color),
        2 => Rgb8::word(color),
        3 => Argb::word(color),
        4 => Abgr::word(color),
        _ => 0,
    }
}

// The levels of 565's red and blue.
pub fn levels5() -> [u8; 32]
    ensures { result ≡ fives }
{
    levels::FIVES
}

// The levels of 565's green.
pub fn levels6() -> [u8; 64]
    ensures { result ≡ sixes }
{
    levels::SIXES
}

// The ARGB words that 332 is read by.
pub fn colors332() -> [u32; 256]
    ensures { result ≡ back332 }
{
    colors::BACK332
}

// A word of 332 read through a table of ARGB words.
pub fn read332(raw: u32, table: &[u32; 256]) -> Color
    ensures { result ≡ through332 table.now raw }
{
    Argb::color(table[(raw % 256) as usize])
}

// A word of 565 read through tables of levels.
pub fn read565(raw: u32, fives: &[u8; 32], sixes: &[u8; 64]) -> Color
    ensures { result ≡ through565 fives.now sixes.now raw }
{
    let r = fives[(raw / 2048 % 32) as usize];
    let g = sixes[(raw / 32 % 64) as usize];
    let b = fives[(raw % 32) as usize];
    Color { a: 255, r, g, b }
}

// The level of the low 5 bits, and of the low 6, without a table, which would keep a loop from taking several pixels at a time.
pub fn level5_of(v: u32) -> u32
    ensures { result ≡ level5 (v % 32) }
{
    (v % 32 * 527 + 23) / 64
}

pub fn level6_of(v: u32) -> u32
    ensures { result ≡ level6 (v % 64) }
{
    (v % 64 * 259 + 33) / 64
}

// The colour that a word is read as.
pub fn to_color(format: u32, raw: u32) -> Color
    ensures { result ≡ to_color (format_of format) raw }
{
    match format {
        0 => Rgb332::color(raw),
        1 => Rgb565::color(raw),
        2 => Rgb8::color(raw),
        3 => Argb::color(raw),
        4 => Abgr::color(raw),
        _ => Color::default(),
    }
}

// XOR with the colour bytes alone, which makes alpha 255.
fn solid_ink<L: Layout>(color: Color) -> Ink
    ensures { result ≡ ink 16777215 (4278190080 + from_color L.form (bare color)) }
{
    let word = L::word(Color { a: 0, ..color });
    Ink {
        keep: 0x00FF_FFFF,
        flip: 0xFF00_0000 + word,
    }
}

// The ink of XOR with a colour of any alpha but 0.
pub fn xor_ink(format: u32, color: Color) -> Ink
    ensures { result ≡ xor_ink (format_of format) color }
{
    match format {
        3 => solid_ink::<Argb>(color),
        4 => solid_ink::<Abgr>(color),
        _ => Ink::flipping(from_color(format, color)),
    }
}

// The ink of a plot.
pub fn plot_ink(format: u32, xor: bool, color: Color) -> Ink
    ensures { result ≡ plot_ink (format_of format) xor color }
{
    if !xor {
        return Ink {
            keep: 0,
            flip: from_color(format, color),
        };
    }
    if color.a == 0 {
        return Ink::flipping(0);
    }
    xor_ink(format, color)
}

// The ink of inversion.
pub fn invert_ink(format: u32) -> Ink
    ensures { result ≡ invert_ink (format_of format) }
{
    match format {
        0 => Ink::flipping(0xFF),
        1 => Ink::flipping(0xFFFF),
        2 => Ink {
            keep: 0xFF_FFFF,
            flip: 0xFF_FFFF,
        },
        3 | 4 => Ink::flipping(0xFF_FFFF),
        _ => Ink::flipping(0),
    }
}

impl Ink {
    // The ink that keeps all bits and then flips some.
    fn flipping(flip: u32) -> Ink
        ensures { result ≡ ink 4294967295 flip }
    {
        Ink {
            keep: u32::MAX,
            flip,
        }
    }

    // The word that a plot leaves where a word stands.
    pub fn on(self, raw: u32) -> u32
        ensures { result ≡ inked self raw }
    {
        (raw & self.keep) ^ self.flip
    }
}
