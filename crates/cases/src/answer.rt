// The line that answers a case.
ghost use Rattle.std.specs.Prelude.{◌≡◌, ◌≤◌, ◌<◌, ◌+◌, [], ◌∷◌, ◌++◌, length, codes};
ghost use Rattle.cases.specs.Answer.{spelled, number, sides_text, found_text, answered};
ghost use Rattle.cases.specs.Place.{Wrote};
ghost use Rattle.cases.specs.Answer.{glyph as glyph_of, places as places_of};

// What a call found: how many plots landed, a colour, nothing, an image's sides and how many of its pixels are clear, or
// an icon's sides and where in its file its pixels start.
#[derive(Clone, Copy)]
pub enum Found {
    Count(u64),
    Argb(u32),
    Nothing,
    Image { w: u32, h: u32, clear: u64 },
    Icon { w: u32, h: u32, start: u64 },
}

// The name is its letters, as a case has it.
#[derive(Clone, Copy)]
pub struct Answer {
    pub name: u64,
    pub status: u32,
    pub found: Found,
    pub hash: u64,
}

// Ten digits, six letters, and above them each byte for itself.
fn glyph(d: u64) -> u8
    requires { d < 256 }
    ensures { result ≡ glyph_of d }
{
    if d < 10 {
        return 48 + d as u8;
    }
    if d < 16 {
        return 87 + d as u8;
    }
    d as u8
}

// Puts the last k digits of n at a place of out, and answers the place after them.
fn put_digits(out: &mut [u8], at: usize, base: u64, k: usize, n: u64) -> usize
    requires lt_base { (1 < base) × (base ≤ 256) }
    requires k_in_bounds { at + k ≤ length out.old }
    ensures { Wrote (spelled base k n) out.old at out.new result }
{
    let mut rest = n;
    for i in (0..k).rev() {
        out[at + i] = glyph(rest % base);
        rest /= base;
    }
    at + k
}

// How many digits n has, up to 20. Inlined, as what puts a number is, so that the base it divides by is a constant.
#[inline(always)]
fn places(base: u64, n: u64) -> usize
    requires { 1 < base }
    ensures value { result ≡ places_of base 19 n }
    ensures upper_bound { result ≤ 20 }
{
    let mut rest = n;
    for k in 1..20 {
        if rest < base {
            return k;
        }
        rest /= base;
    }
    20
}

// Puts a number.
#[inline(always)]
fn put_number(out: &mut [u8], at: usize, base: u64, n: u64) -> usize
    requires lt_base { (1 < base) × (base ≤ 256) }
    requires at_in_bounds { at + 20 ≤ length out.old }
    ensures wrote { Wrote (number base n) out.old at out.new result }
    ensures upper_bound { result ≤ at + 20 }
{
    let k = places(base, n);
    put_digits(out, at, base, k, n)
}

// Puts a text, byte by byte.
fn put_text(out: &mut [u8], at: usize, text: &[u8]) -> usize
    requires { at + length text.now ≤ length out.old }
    ensures { Wrote text.now out.old at out.new result }
{
    let end = at + text.len();
    out[at..end].copy_from_slice(text);
    end
}

// Puts a label and a number.
fn put_field(out: &mut [u8], at: usize, label: &[u8], n: u64) -> usize
    requires { at + length label.now + 20 ≤ length out.old }
    ensures wrote { Wrote (label.now ++ number 10 n) out.old at out.new result }
    ensures upper_bound { result ≤ at + length label.now + 20 }
{
    let from = put_text(out, at, label);
    put_number(out, from, 10, n)
}

// Puts an image's sides, and a label and a number.
fn put_image(out: &mut [u8], at: usize, w: u32, h: u32, label: &[u8], n: u64) -> usize
    requires { at + length label.now + 66 ≤ length out.old }
    ensures wrote { Wrote (sides_text w h ++ (label.now ++ number 10 n)) out.old at out.new result }
    ensures upper_bound { result ≤ at + length label.now + 66 }
{
    let a = put_field(out, at, b" w=", u64::from(w));
    let b = put_field(out, a, b" h=", u64::from(h));
    put_field(out, b, label, n)
}

fn put_found(out: &mut [u8], at: usize, f: Found) -> usize
    requires { at + 73 ≤ length out.old }
    ensures wrote { Wrote (found_text f) out.old at out.new result }
    ensures upper_bound { result ≤ at + 73 }
{
    match f {
        Found::Count(n) => put_field(out, at, b" count=", n),
        Found::Argb(n) => put_field(out, at, b" argb=", u64::from(n)),
        Found::Nothing => put_text(out, at, b" none"),
        Found::Image { w, h, clear } => put_image(out, at, w, h, b" clear=", clear),
        Found::Icon { w, h, start } => put_image(out, at, w, h, b" at=", start),
    }
}

// Puts a hash and the line's end.
fn put_hash(out: &mut [u8], at: usize, hash: u64) -> usize
    requires { at + 23 ≤ length out.old }
    ensures { Wrote (codes " hash=" ++ spelled 16 16 hash ++ (10 ∷ [])) out.old at out.new result }
{
    let d = put_text(out, at, b" hash=");
    let e = put_digits(out, d, 16, 16, hash);
    out[e] = 10;
    e + 1
}

// Puts the line that answers at the start of out, and answers its length. With less than 144 bytes lent it does
// nothing, and answers 0.
pub fn write(answer: Answer, out: &mut [u8]) -> usize
    ensures { (result, out.new) ≡ answered answer out.old }
{
    if out.len() < 144 {
        return 0;
    }
    let f = answer.found;
    let a = put_number(out, 0, 256, answer.name);
    let b = put_field(out, a, b" status=", u64::from(answer.status));
    let c = put_found(out, b, f);
    put_hash(out, c, answer.hash)
}
