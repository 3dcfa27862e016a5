// What the words of a line stand for.
ghost use Rattle.std.specs.Prelude.{◌≡◌, Bool, ◌≤◌, ◌<◌, ◌%◌};
ghost use Rattle.replies.specs.Numbers.{word_at, int_at, color_at, clip_at, canvas_at, clip_start};

use canvas::Clip;
use cases::{COPY, DRAW, FILL, INVERT, LINE, PUT, RECT};
use pixels::Canvas;
use words::Color;

// The words of a line, before its op or behind it.
#[derive(Clone, Copy)]
pub(crate) struct Row {
    pub(crate) words: [u32; 16],
}

impl Row {
    pub(crate) fn word(self, i: usize) -> u32
        requires { i < 16 }
        ensures { result ≡ word_at self.words i }
    {
        self.words[i]
    }

    // The word i as an i32.
    pub(crate) fn int(self, i: usize) -> i32
        requires { i < 16 }
        ensures { result ≡ int_at self.words i }
    {
        self.words[i].cast_signed()
    }

    // The low byte of the word i.
    fn low(self, i: usize) -> u8
        requires { i < 16 }
        ensures { result ≡ word_at self.words i % 256 }
    {
        (self.words[i] % 256) as u8
    }

    // COL, which begins at the word i.
    #[tactic(auto, unfolding(crate::specs::Numbers::color_at))]
    pub(crate) fn color(self, i: usize) -> Color
        requires { i ≤ 12 }
        ensures { result ≡ color_at self.words i }
    {
        Color {
            a: self.low(i),
            r: self.low(i + 1),
            g: self.low(i + 2),
            b: self.low(i + 3),
        }
    }

    // CLIP, which begins at the word i.
    #[tactic(auto, unfolding(crate::specs::Numbers::clip_at))]
    pub(crate) fn clip(self, i: usize) -> Clip
        requires { i ≤ 12 }
        ensures { result ≡ clip_at self.words i }
    {
        Clip {
            x: self.int(i),
            y: self.int(i + 1),
            width: self.word(i + 2),
            height: self.word(i + 3),
        }
    }

    // A canvas, whose format, width and height begin at the word i, and whose row length and rule begin at the word j.
    #[tactic(auto, unfolding(crate::specs::Numbers::canvas_at))]
    pub(crate) fn canvas(self, i: usize, j: usize, xor: bool) -> Canvas
        requires i_bound { i ≤ 12 }
        requires j_bound { j < 15 }
        ensures { result ≡ canvas_at self.words i j xor }
    {
        Canvas {
            format: self.word(i),
            width: self.word(i + 1),
            height: self.word(i + 2),
            row: self.word(j),
            xor,
            rule: self.word(j + 1),
        }
    }
}

// The word at which CLIP begins; COL, where an op has it, ends there.
#[tactic(auto, unfolding(crate::specs::Numbers::clip_start))]
pub(crate) fn clip_at(name: u64) -> usize
    ensures value { result ≡ clip_start name }
    ensures lower_bound { (4 ≤ result) × (result ≤ 12) }
{
    match name {
        INVERT => 4,
        PUT | COPY => 6,
        LINE | RECT | FILL => 8,
        DRAW => 12,
        _ => 10,
    }
}
