// What the bytes of a canvas hold first.
ghost use Rattle.std.specs.Prelude.{◌≡◌, ◌<◌, ◌*◌, ◌%◌, length};
ghost use Rattle.std.specs.Char.{is_digit};
ghost use Rattle.cases.specs.Line.{words_of, next};
ghost use Rattle.cases.specs.Place.{sown, Reads, left_of, Fills, pairs};
ghost use Rattle.cases.specs.Seed.{given_hex, counted, seed_of, file_of, first_bytes, turns};
ghost use Rattle.cases.specs.Seed.{nibble as nibble_of};

use crate::line::alone;
use crate::number::number;

#[derive(Clone, Copy)]
pub(crate) enum Seed<'a> {
    Zeros,
    Number(u32),
    // Hex digits, two for each byte.
    Bytes(&'a [u8]),
}

// The seed that is the first word left.
pub(crate) fn read_seed(left: Option<&[u8]>) -> Option<(Seed<'_>, Option<&[u8]>)>
    ensures { Reads sown result (seed_of (left_of left.entry)) }
{
    let text = left?;
    if let Some(left) = alone(text, b'z') {
        return Some((Seed::Zeros, left));
    }
    match text.strip_prefix(b"x") {
        Some(digits) => hex(digits),
        None => {
            let (n, left) = number(text, u32::MAX)?;
            Some((Seed::Number(n), left))
        }
    }
}

// A file's bytes as the first word left, in hex; a minus is none.
pub(crate) fn read_file(left: Option<&[u8]>) -> Option<(Seed<'_>, Option<&[u8]>)>
    ensures { Reads sown result (file_of (left_of left.entry)) }
{
    let text = left?;
    if let Some(left) = alone(text, b'-') {
        return Some((Seed::Bytes(&[]), left));
    }
    if text.is_empty() || text.starts_with(b" ") {
        return None;
    }
    hex(text)
}

fn is_digit(b: u8) -> bool
    ensures { result ≡ is_digit b 16 }
{
    b.is_ascii_hexdigit()
}

// The hex digits that the first word is, two for each byte.
fn hex(text: &[u8]) -> Option<(Seed<'_>, Option<&[u8]>)>
    ensures { Reads sown result (next (counted 0) given_hex (words_of text.now)) }
{
    for (i, b) in text.iter().enumerate() {
        if !is_digit(*b) {
            if *b != b' ' || i % 2 != 0 {
                return None;
            }
            return Some((Seed::Bytes(&text[..i]), Some(&text[i + 1..])));
        }
    }
    if text.len() % 2 != 0 {
        return None;
    }
    Some((Seed::Bytes(text), None))
}

// What a hex digit stands for; 16 for what is none.
fn nibble(b: u8) -> u8
    ensures { result ≡ nibble_of b }
{
    match b {
        b'0'..=b'9' => b - b'0',
        b'A'..=b'F' => b - b'A' + 10,
        b'a'..=b'f' => b - b'a' + 10,
        _ => 16,
    }
}

// Puts the seed's first bytes into all of bytes.
pub(crate) fn sow(seed: Seed, bytes: &mut [u8])
    requires { Fills (sown seed) (length bytes.old) }
    ensures { bytes.new ≡ first_bytes (sown seed.entry) (length bytes.old) }
{
    match seed {
        Seed::Zeros => bytes.fill(0),
        Seed::Number(s) => grow(s, bytes),
        Seed::Bytes(digits) => decode(digits, bytes),
    }
}

// Each byte is the top one of the next t.
fn grow(s: u32, bytes: &mut [u8])
    ensures { bytes.new ≡ turns 1013904223 (length bytes.old) s }
{
    let mut t = s;
    for byte in bytes.iter_mut() {
        t = t.wrapping_mul(1664525).wrapping_add(1013904223);
        *byte = (t >> 24) as u8;
    }
}

fn decode(digits: &[u8], bytes: &mut [u8])
    requires { length bytes.old ≡ length (pairs digits.now) }
    ensures { bytes.new ≡ pairs digits.now }
{
    for (i, byte) in bytes.iter_mut().enumerate() {
        *byte = nibble(digits[2 * i]) % 16 * 16 + nibble(digits[2 * i + 1]) % 16;
    }
}
