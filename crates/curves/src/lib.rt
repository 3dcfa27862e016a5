// The float arithmetic of arcs, pies and round corners. It knows nothing of bytes or canvases.
#![tactic(auto)]

pub mod bulges;
pub mod corners;
pub mod oval;
pub mod pies;
pub mod strokes;
