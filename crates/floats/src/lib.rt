// Floats: what the Rust's methods and casts answer, for every float.
#![tactic(auto)]

mod degrees;
mod size;
mod whole;

pub use degrees::{radians, rem_euclid_360};
pub use size::{abs, is_sign_negative, max};
pub use whole::{as_u8, ceil_size, round_i32, round_i32_f64, round_lifted};
