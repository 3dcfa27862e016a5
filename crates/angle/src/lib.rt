// Angles: the sine and the cosine of radians, and the degrees of a direction.
#![tactic(auto)]

pub mod arctangent;
pub mod sine;
