// A line as a case.
ghost use Rattle.std.specs.Prelude.{◌≡◌, ◌<◌};
ghost use Rattle.cases.specs.Place.{taken};
ghost use Rattle.cases.specs.Case.{exactly, fitting, capped, lent_at, laid_out, case_of};

use crate::number::read_name;
use crate::ops::{HEAD, kinds};
use crate::row::{Args, read_args};
use crate::seed::{Seed, sow};

// The op's name, the numbers before it, those behind it, and how many bytes the canvas and the image beside it have.
#[derive(Clone, Copy)]
pub struct Case {
    pub name: u64,
    pub head: [u32; 16],
    pub args: [u32; 16],
    pub bytes: usize,
    pub image: usize,
}

// So many bytes, if they are no more than the room.
fn fitting(n: usize, room: usize) -> Option<usize>
    ensures { result ≡ fitting room n }
{
    if room < n { None } else { Some(n) }
}

// How many bytes a canvas has, if they are no more than the room.
fn held(format: u32, row: u32, height: u32, room: usize) -> Option<usize>
    ensures { result ≡ capped room (exactly format row height) }
{
    let size = words::bytes_per_pixel(format);
    if size == 0 {
        return None;
    }
    let area = row as usize * height as usize;
    if room / size < area {
        return None;
    }
    Some(area * size)
}

// How many bytes the seed gives a canvas whose format, width and height begin at the word i, and whose row length is the
// word j, if they are no more than the room.
fn lent(args: Args, i: usize, j: usize, room: usize) -> Option<usize>
    requires i_bound { i < 14 }
    requires j_bound { j < 16 }
    ensures { result ≡ lent_at room i j (taken args.entry) }
{
    let n = args.numbers;
    match args.seed {
        Seed::Bytes(digits) => fitting(digits.len() / 2, room),
        _ => held(n[i], n[j], n[i + 2], room),
    }
}

// Lays the first bytes out, where there is room for both.
fn lay_both(name: u64, head: Args, args: Args, bytes: &mut [u8], image: &mut [u8]) -> Option<Case>
    ensures { (result, bytes.new, image.new) ≡ laid_out name (taken head.entry) (taken args.entry) bytes.old image.old }
{
    let n = lent(head, 0, 5, bytes.len())?;
    let m = lent(args, 4, 8, image.len())?;
    sow(head.seed, &mut bytes[..n]);
    sow(args.seed, &mut image[..m]);
    Some(Case {
        name,
        head: head.numbers,
        args: args.numbers,
        bytes: n,
        image: m,
    })
}

// Reads a line: the numbers, the canvas's first bytes at the start of bytes, and those of the image or the file beside
// it at the start of image. A case that needs more bytes than are lent is bad, and a bad line leaves both as they were.
pub fn read(line: &[u8], bytes: &mut [u8], image: &mut [u8]) -> Option<Case>
    ensures { (result, bytes.new, image.new) ≡ case_of line.now bytes.old image.old }
{
    let (head, left) = read_args(Some(line), &HEAD)?;
    let (name, left) = read_name(left)?;
    let kinds = kinds(name);
    if kinds.is_empty() {
        return None;
    }
    let (args, left) = read_args(left, kinds)?;
    if left.is_some() {
        return None;
    }
    lay_both(name, head, args, bytes, image)
}
