// The calls that draw arcs, pies and round rectangles.
#![tactic(auto)]

mod faults;
mod fills;
mod rounds;
mod runs;
mod strokes;

pub use fills::{fill_arc, fill_round_rect};
pub use rounds::draw_round_rect;
pub use strokes::draw_arc;
