// How a file begins, and what the record at a place says.
ghost use Rattle.std.specs.Prelude.{◌≡◌, ◌+◌, ◌≤◌, ltb, length};
ghost use Rattle.res.specs.Record.{is_res, area, static, moving, step_at};

use crate::{Icon, Refusal};
use fields::u8_at;

// The icon, or where the next record begins.
#[derive(Clone, Copy)]
pub(crate) enum Step {
    Here(Icon),
    Next(usize),
}

// Whether a file begins as RES files do, and has the first record's offset.
pub(crate) fn is_res(file: &[u8]) -> bool
    ensures { result ≡ is_res file.now }
{
    if file.len() < 8 {
        return false;
    }
    (file[0] == 0xce) & (file[1] == 0xfa) & (file[2] == 0xad) & (file[3] == 0xde)
}

// The pixels of a record's icon, or of a frame.
fn area_at(file: &[u8], at: usize) -> usize
    requires { at + 8 ≤ length file.now }
    ensures { (result ≡ area file.now at) × (result ≤ 65025) }
{
    u8_at(file, at + 1) as usize * u8_at(file, at + 2) as usize
}

// A record of type 2.
fn static_at(file: &[u8], at: usize) -> Result<Step, Refusal>
    requires { at + 8 ≤ length file.now }
    ensures { result ≡ static file.now at }
{
    if file.len() - (at + 8) < area_at(file, at) {
        return Err(Refusal::Res);
    }
    Ok(Step::Here(Icon {
        start: at + 8,
        width: u8_at(file, at + 1),
        height: u8_at(file, at + 2),
    }))
}

// A record of type 3.
fn moving_at(file: &[u8], at: usize) -> Result<Step, Refusal>
    requires { at + 8 ≤ length file.now }
    ensures { result ≡ moving file.now at }
{
    if file.len() < at + 9 {
        return Err(Refusal::Res);
    }
    Ok(Step::Next(at + 9 + u8_at(file, at + 8) as usize * area_at(file, at)))
}

// Whether the header of a record at a place is cut short.
fn is_cut(file: &[u8], at: usize) -> bool
    ensures { result ≡ ltb (length file.now) (at + 8) }
{
    if file.len() < 8 {
        return true;
    }
    file.len() - 8 < at
}

// The record at a place.
pub(crate) fn step_at(file: &[u8], at: usize) -> Result<Step, Refusal>
    ensures { result ≡ step_at file.now at }
{
    if is_cut(file, at) {
        return Err(Refusal::NoIcon);
    }
    let kind = u8_at(file, at);
    let depth = u8_at(file, at + 3);
    if depth != 8 {
        return Err(Refusal::Depth);
    }
    match kind {
        2 => static_at(file, at),
        3 => moving_at(file, at),
        _ => Err(Refusal::ResType),
    }
}
