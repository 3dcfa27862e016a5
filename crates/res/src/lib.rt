// RES, the phone's file of icons: its first static icon.
#![tactic(auto, unfolding(crate::specs::Search::number))]

ghost use Rattle.std.specs.Prelude.{◌≡◌};
ghost use Rattle.res.specs.Search.{number, first_icon, icon_pixels};

mod records;

use records::{Step, is_res, step_at};

// Why a file is refused.
#[derive(Clone, Copy, Debug, PartialEq, Eq)]
pub enum Refusal {
    Res,
    Depth,
    ResType,
    NoIcon,
}

// Where an icon's pixels start in the file, a byte each, and its sides.
#[derive(Clone, Copy, Debug, PartialEq, Eq)]
pub struct Icon {
    pub start: usize,
    pub width: u32,
    pub height: u32,
}

impl Refusal {
    // 02's number.
    pub fn number(self) -> u32
        ensures { result ≡ number self }
    {
        match self {
            Refusal::Res => 13,
            Refusal::Depth => 14,
            Refusal::ResType => 15,
            Refusal::NoIcon => 16,
        }
    }
}

// The first static icon of a file.
pub fn decode_res(file: &[u8]) -> Result<Icon, Refusal>
    ensures { result ≡ first_icon file.now }
{
    if !is_res(file) {
        return Err(Refusal::Res);
    }
    let mut at = fields::u16_at(file, 6) as usize;
    loop {
        match step_at(file, at)? {
            Step::Here(icon) => return Ok(icon),
            Step::Next(next) => at = next,
        }
    }
}

// The part of the file that has the icon's pixels; an empty part where it is refused.
pub fn icon_pixels(file: &[u8]) -> &[u8]
    ensures { result.now ≡ icon_pixels file.now }
{
    let Ok(i) = decode_res(file) else {
        return &file[..0];
    };
    let end = i.start + i.width as usize * i.height as usize;
    &file[i.start..end]
}
