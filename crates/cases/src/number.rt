// The words of a line that are numbers or names. A text is what is left of the line, from a word on: its bytes are read one
// by one up to the space that ends the word, and no further than one that doesn't fit.
ghost use Rattle.std.specs.Prelude.{◌≢◌, Some, All};
ghost use Rattle.cases.specs.Line.{words_of, next};
ghost use Rattle.cases.specs.Place.{Reads, left_of};
ghost use Rattle.cases.specs.Number.{number_of, behind, named_of, signed_of, numeric, name_of};

use crate::ops::Kind;

// The number that the first word is, if it is at most so much, and what is left after it.
pub(crate) fn number(text: &[u8], most: u32) -> Option<(u32, Option<&[u8]>)>
    ensures { Reads (λ n. n) result (number_of most (words_of text.now)) }
{
    let mut value: u32 = 0;
    for (i, b) in text.iter().enumerate() {
        if !b.is_ascii_digit() {
            if *b != b' ' || i == 0 {
                return None;
            }
            return Some((value, Some(&text[i + 1..])));
        }
        let longer = u64::from(value) * 10 + u64::from(*b - b'0');
        if u64::from(most) < longer {
            return None;
        }
        value = longer as u32;
    }
    if text.is_empty() {
        None
    } else {
        Some((value, None))
    }
}

// The number that an i32 is given by, its bits.
fn signed(text: &[u8]) -> Option<(u32, Option<&[u8]>)>
    ensures { Reads (λ n. n) result (signed_of (words_of text.now)) }
{
    match text.strip_prefix(b"-") {
        Some(digits) => {
            let (n, left) = number(digits, 2147483648)?;
            Some((n.wrapping_neg(), left))
        }
        None => number(text, 2147483647),
    }
}

// The number of a kind that the first word is.
fn numeric(text: &[u8], kind: Kind) -> Option<(u32, Option<&[u8]>)>
    ensures { Reads (λ n. n) result (numeric kind (words_of text.now)) }
{
    match kind {
        Kind::Switch => number(text, 1),
        Kind::Channel => number(text, 255),
        Kind::Int => signed(text),
        _ => number(text, u32::MAX),
    }
}

// The number of a kind that is the first word left.
pub(crate) fn read_kind(left: Option<&[u8]>, kind: Kind) -> Option<(u32, Option<&[u8]>)>
    ensures { Reads (λ n. n) result (numeric kind (left_of left.entry)) }
{
    numeric(left?, kind)
}

// The number behind a name that begins the first word.
fn named<'a>(text: &'a [u8], name: &[u8]) -> Option<(u32, Option<&'a [u8]>)>
    requires { All (λ b. b ≢ 32) name.now }
    ensures { Reads (λ n. n) result (next 0 (behind name.now) (words_of text.now)) }
{
    number(text.strip_prefix(name)?, u32::MAX)
}

// The number behind a name, in which is no space, that begins the first word left; where no such word stands there, nothing
// is taken, and the number is what it is absent.
pub(crate) fn read_named<'a>(
    left: Option<&'a [u8]>,
    name: &[u8],
    absent: u32,
) -> (u32, Option<&'a [u8]>)
    requires { All (λ b. b ≢ 32) name.now }
    ensures { Reads (λ n. n) (Some result) (named_of name.now absent (left_of left.entry)) }
{
    let Some(text) = left else {
        return (absent, left);
    };
    match named(text, name) {
        Some(read) => read,
        None => (absent, left),
    }
}

// The letters of the first word as a number, the first one highest: at most seven, none of them 0.
fn letters(text: &[u8]) -> Option<(u64, Option<&[u8]>)>
    ensures { Reads (λ n. n) result (name_of (words_of text.now)) }
{
    let mut value: u64 = 0;
    for (i, b) in text.iter().enumerate() {
        if *b == b' ' {
            return Some((value, Some(&text[i + 1..])));
        }
        if *b == 0 || 281474976710655 < value {
            return None;
        }
        value = value * 256 + u64::from(*b);
    }
    Some((value, None))
}

// The name that is the first word left.
pub(crate) fn read_name(left: Option<&[u8]>) -> Option<(u64, Option<&[u8]>)>
    ensures { Reads (λ n. n) result (name_of (left_of left.entry)) }
{
    letters(left?)
}
