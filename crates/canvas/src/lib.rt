// The canvas: a record by value beside lent bytes, clips, and the calls that draw points, lines and boxes; and what the
// calls of images and ovals are made of.
#![tactic(auto)]

ghost use Rattle.std.specs.Prelude.{◌≡◌};
ghost use Rattle.canvas.specs.Faults.{number};
ghost use Rattle.canvas.specs.Clip.{intersection};
ghost use Rattle.canvas.specs.Call.{status_of, count_of};

mod areas;
pub mod boxes;
pub mod faults;
mod lines;
mod look;
pub mod plot;
pub mod span;

pub use areas::invert_rect;
pub use boxes::{draw_rect, fill_rect};
pub use lines::draw_line;
pub use look::get_pixel;
pub use plot::put_pixel;

#[derive(Clone, Copy)]
pub struct Clip {
    pub x: i32,
    pub y: i32,
    pub width: u32,
    pub height: u32,
}

// Why a call is refused.
#[derive(Clone, Copy, Debug, PartialEq, Eq)]
pub enum Refusal {
    Format,
    Size,
    Length,
    Source,
    Angle,
    Shape,
    Row,
    Rule,
}

// What became of the plots so far.
#[derive(Clone, Copy)]
pub struct Tally {
    pub landed: u64,
}

// What a drawing call answers.
pub type Drawn = Result<Tally, Refusal>;

impl Refusal {
    // 01's number, and 02's.
    pub fn number(self) -> u32
        ensures { result ≡ number self }
    {
        match self {
            Refusal::Format => 1,
            Refusal::Size => 2,
            Refusal::Length => 3,
            Refusal::Source => 4,
            Refusal::Angle => 5,
            Refusal::Shape => 6,
            Refusal::Row => 18,
            Refusal::Rule => 23,
        }
    }
}

// 01's number: 0, or the refusal's.
pub fn status(drawn: Drawn) -> u32
    ensures { result ≡ status_of drawn }
{
    match drawn {
        Ok(_) => 0,
        Err(r) => r.number(),
    }
}

// The plots that landed.
pub fn count(drawn: Drawn) -> u64
    ensures { result ≡ count_of drawn }
{
    match drawn {
        Ok(t) => t.landed,
        Err(_) => 0,
    }
}

impl Clip {
    pub fn intersect(self, other: Clip) -> Clip
        ensures { result ≡ intersection self other }
    {
        Clip {
            x: self.x.max(other.x),
            y: self.y.max(other.y),
            width: crate::span::shared_by(self.x, self.width, other.x, other.width),
            height: crate::span::shared_by(self.y, self.height, other.y, other.height),
        }
    }
}
