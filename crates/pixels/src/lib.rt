// The canvas record, and the words of its pixels in the lent bytes: one by one, by rows and by chunks.
#![tactic(auto)]

pub mod bytes;
pub mod chunks;
pub mod rows;

// A canvas is a format number, width, height, row length in pixels, XOR switch and number of a blending rule; its bytes
// are lent beside it.
#[derive(Clone, Copy)]
pub struct Canvas {
    pub format: u32,
    pub width: u32,
    pub height: u32,
    pub row: u32,
    pub xor: bool,
    pub rule: u32,
}
