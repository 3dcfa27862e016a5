// Reads cases from standard input, one a line, and writes a line for each to standard output.
#![tactic(auto)]

ghost use Rattle.std.specs.Prelude.{◌≡◌, length};

use dialogue::{Place, Stop};
use std::io;
use std::io::{Read, Write};

// No answer is longer.
const ROOM: usize = 144;

// Answers all of the input. A proved loop has to end, so it counts its turns, up to a number that no run uses up.
fn serve<R: Read, W: Write>(
    input: &mut R,
    output: &mut W,
    text: &mut [u8],
    bytes: &mut [u8],
    image: &mut [u8],
    words: &mut [u32],
    out: &mut [u8],
) -> Result<(), Stop> {
    let mut last = Place::default();
    for _ in 0..u64::MAX {
        let Some(p) = dialogue::next(input, output, text, out, last, ROOM)? else {
            return Ok(());
        };
        let n = replies::reply(&text[p.at..p.end], bytes, image, words, &mut out[p.used..]);
        last = Place {
            used: p.used + n,
            ..p
        };
    }
    Ok(())
}

// As many zeros. The contract says how many, so that no check counts them.
fn zeros<T: Copy + Default, const N: usize>() -> [T; N]
    ensures { N ≡ length result }
{
    [T::default(); N]
}

fn main(rt: HostRuntime) -> io::Result<()> {
    // Room for the largest canvas or image that is tried, and for more than two lines of the greatest length.
    let mut text: [u8; 1048576] = zeros();
    let mut bytes: [u8; 1048576] = zeros();
    let mut image: [u8; 1048576] = zeros();
    // As many words as are lent at most: no file that a line holds has as many pixels.
    let mut words: [u32; 131072] = zeros();
    // Room for the answers that wait to be written.
    let mut out: [u8; 65536] = zeros();
    let served = serve(
        &mut rt.stdin(),
        &mut rt.stdout(),
        &mut text,
        &mut bytes,
        &mut image,
        &mut words,
        &mut out,
    );
    match served {
        Ok(()) => Ok(()),
        Err(stop) => eprintln!(rt; "replay: standard {stop}"),
    }
}
