// Lines of an input, one after the other, and the answers to them, written before more is waited for. A program holds a text,
// of which a place says how much is read and where its line is, and out, of which a place says how much is used.
#![tactic(auto)]

ghost use Rattle.std.specs.Prelude.{◌≡◌, ◌+◌, ◌-◌, ◌≤◌, [], length, IfOk, IfSome, OnOk};
ghost use Rattle.std.specs.List.{copy_within};
ghost use Rattle.std.specs.Io.KnownBytes.{Appends};
ghost use Rattle.dialogue.specs.Line.{first_line, Stands, top, start, ahead, Follows};

use std::error::Error;
use std::fmt;
use std::io::{Read, Write};

// What could not be done.
#[derive(Clone, Copy, Debug, PartialEq, Eq)]
pub enum Stop {
    Unread,
    Unwritten,
}

impl fmt::Display for Stop {
    fn fmt<W: fmt::Write>(&self, f: &mut fmt::Formatter<W>) -> fmt::Result {
        match self {
            Stop::Unread => write!(f, "input can't be read"),
            Stop::Unwritten => write!(f, "output can't be written"),
        }
    }
}

impl Error for Stop {}

// Where a line is, and how much of the text is held and of out is used. A program begins at the default.
#[derive(Clone, Copy, Debug, Default)]
pub struct Place {
    pub at: usize,
    pub end: usize,
    pub held: usize,
    pub used: usize,
}

// As much of a line is kept as tells that it is longer than any that is read.
const KEPT: usize = 65538;

// How long the first line of a text is.
fn first_line(text: &[u8]) -> usize
    ensures { result ≡ length (first_line text.now) }
{
    text.iter().take_while(|&&b| b != b'\n').count()
}

// The line behind the last one, as much of it as is held. No place is beyond the text and out.
fn found(text: &[u8], out: &[u8], last: Place) -> Place
    ensures stands { Stands result text.now out.now }
    ensures held { result.held ≡ top last text.now }
    ensures at { result.at ≡ start last text.now }
    ensures end { result.end ≡ ahead last text.now }
{
    let held = last.held.min(text.len());
    let at = last.end.saturating_add(1).min(held);
    let n = first_line(&text[at..held]);
    Place {
        at,
        end: at + n,
        held,
        used: last.used.min(out.len()),
    }
}

// Moves what is held from a place's line on to the text's start, as much of it as is kept, and answers how much that is.
fn keep(text: &mut [u8], p: Place) -> usize
    requires order { p.at ≤ p.held }
    requires within { p.held ≤ length text.old }
    ensures kept { result ≤ p.held - p.at }
    ensures moved { text.new ≡ copy_within text.old p.at (p.at + result) 0 }
{
    let n = (p.held - p.at).min(KEPT);
    text.copy_within(p.at..p.at + n, 0);
    n
}

// Reads behind what is kept until a line is whole. At the end of the input what is held is a line without its end, or there is
// none. A proved loop has to end, so it counts its turns, up to a number that no run uses up.
fn wait<R: Read>(input: &mut R, text: &mut [u8], mut kept: usize) -> Result<Option<Place>, Stop>
    requires { kept ≤ length text.old }
    ensures { IfOk result (λ p. IfSome p (λ q. Stands q text.new [])) }
{
    for _ in 0..u64::MAX {
        let n = input.read(&mut text[kept..]).map_err(|_| Stop::Unread)?;
        let held = kept + n;
        if held == 0 {
            return Ok(None);
        }
        let end = first_line(&text[..held]);
        if n == 0 || end < held {
            return Ok(Some(Place {
                at: 0,
                end,
                held,
                used: 0,
            }));
        }
        kept = held.min(KEPT);
    }
    Ok(None)
}

// Writes all of out, or stops at the first write that takes nothing or fails. std's write_all would go on where a signal broke a
// write off before it took anything.
#[tactic(auto, using(crate::proofs::Laws::written_more))]
fn write_whole<W: Write>(output: &mut W, out: &[u8]) -> Result<(), Stop>
    ensures { OnOk result (Appends (W.contents output.old) (W.contents output.new) out.now) }
{
    let mut done = 0;
    while done < out.len() {
        match output.write(&out[done..]) {
            Ok(0) | Err(_) => return Err(Stop::Unwritten),
            Ok(n) => done += n,
        }
    }
    Ok(())
}

// The line behind the last one, or none at the end of the input. Where none is whole, or less than so much room is left in out,
// what is used of out is written first; then more is read.
pub fn next<R: Read, W: Write>(
    input: &mut R,
    output: &mut W,
    text: &mut [u8],
    out: &[u8],
    last: Place,
    room: usize,
) -> Result<Option<Place>, Stop>
    ensures stands { IfOk result (λ p. IfSome p (λ q. Stands q text.new out.now)) }
    ensures follows { IfOk result (λ p. IfSome p (λ q. Follows last q text.old text.new)) }
{
    let p = found(text, out, last);
    let whole = p.end < p.held;
    if whole && room <= out.len() - p.used {
        return Ok(Some(p));
    }
    write_whole(output, &out[..p.used])?;
    if whole {
        return Ok(Some(Place { used: 0, ..p }));
    }
    let kept = keep(text, p);
    wait(input, text, kept)
}
