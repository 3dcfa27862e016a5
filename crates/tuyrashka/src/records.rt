// The records of include/tuyrashka.h: where each field stands, and what a call is told by them.
ghost use Rattle.std.specs.Prelude.{◌≡◌};
ghost use Rattle.canvas.specs.Call.{status_of, count_of};
ghost use Rattle.tuyrashka.specs.Exported.{canvas_of, source_of, bits_of, clip_of, words_of, color_of, drawn_of, size_of};

use canvas::span::signed;
use canvas::{Clip, Drawn};
use pixels::Canvas;
use words::Color;

pub(crate) fn canvas_of(c: &[u32; 6]) -> Canvas
    ensures { result ≡ canvas_of c.now }
{
    Canvas {
        format: c[0],
        width: c[1],
        height: c[2],
        row: c[4],
        xor: c[3] != 0,
        rule: c[5],
    }
}

pub(crate) fn source_of(c: &[u32; 6]) -> Canvas
    ensures { result ≡ source_of c.now }
{
    Canvas {
        xor: false,
        ..canvas_of(c)
    }
}

fn bits(z: i32) -> u32
    ensures { result ≡ bits_of z }
{
    z.cast_unsigned()
}

pub(crate) fn clip_of(c: &[u32; 4]) -> Clip
    ensures { result ≡ clip_of c.now }
{
    Clip {
        x: signed(c[0]),
        y: signed(c[1]),
        width: c[2],
        height: c[3],
    }
}

pub(crate) fn give_clip(c: Clip, out: &mut [u32; 4])
    ensures { out.new ≡ words_of c }
{
    *out = [bits(c.x), bits(c.y), c.width, c.height];
}

pub(crate) fn color_of(argb: u32) -> Color
    ensures { result ≡ color_of argb }
{
    words::to_color(3, argb)
}

// The record of a drawing; the number is answered.
pub(crate) fn give_drawn(d: Drawn, out: &mut [u64; 1]) -> u32
    ensures { (result ≡ status_of d) × (out.new ≡ drawn_of (count_of d)) }
{
    match d {
        Err(r) => {
            *out = [0];
            r.number()
        }
        Ok(t) => {
            *out = [t.landed];
            0
        }
    }
}

pub(crate) fn give_size(width: u32, height: u32, out: &mut [u32; 2])
    ensures { out.new ≡ size_of width height }
{
    *out = [width, height];
}
