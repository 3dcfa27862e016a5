// The calls that draw images and copy areas.
#![tactic(auto)]

mod copy;
mod parts;
mod pictures;

pub use copy::{copy_area, copy_counted};
pub use pictures::draw;
