// LBMP, the phone's bitmap file: judged, and decoded to ARGB words.
#![tactic(auto, unfolding(crate::specs::Faults::number))]

ghost use Rattle.std.specs.Prelude.{◌≡◌};
ghost use Rattle.lbmp.specs.Faults.{number};
ghost use Rattle.lbmp.specs.Call.{reads, judgement, outcome, decoding};

mod faults;
mod header;
mod paint;
mod planes;

// Why a file is refused.
#[derive(Clone, Copy, Debug, PartialEq, Eq)]
pub enum Refusal {
    Invalid,
    BadType,
    Room,
}

// The sides of an image, and how many of its pixels are transparent.
#[derive(Clone, Copy, Debug, PartialEq, Eq)]
pub struct Image {
    pub width: u32,
    pub height: u32,
    pub clear: u64,
}

// What judging and decoding answer.
pub type Judged = Result<Image, Refusal>;

impl Refusal {
    // 01's number.
    pub fn number(self) -> u32
        ensures { result ≡ number self }
    {
        match self {
            Refusal::Invalid => 10,
            Refusal::BadType => 11,
            Refusal::Room => 12,
        }
    }
}

// Whether a file is sound, by everything but ROOM.
pub fn judge(file: &[u8]) -> Judged
    ensures { reads result ≡ judgement file.now }
{
    faults::verdict_of(file)?;
    let h = header::read_header(file);
    let clear = planes::clear_of(header::mask_bytes(file, h), h);
    Ok(Image {
        width: h.width,
        height: h.height,
        clear,
    })
}

// The ARGB words of a file, in rows, into the words lent.
pub fn decode_lbmp(file: &[u8], out: &mut [u32]) -> Judged
    ensures { outcome (reads result) out.new ≡ decoding file.now out.old }
{
    let image = judge(file)?;
    if (out.len() as u64) < u64::from(image.width) * u64::from(image.height) {
        return Err(Refusal::Room);
    }
    paint::write_words(file, out);
    Ok(image)
}
