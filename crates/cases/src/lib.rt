// The text of cases: a line is read into numbers and first bytes; an answer is written as a line.
#![tactic(auto)]

mod answer;
mod case;
mod fnv;
mod line;
mod number;
mod ops;
mod row;
mod seed;

pub use answer::{Answer, Found, write};
pub use case::{Case, read};
pub use fnv::{hash, hash_words};
pub use ops::{ARC, COPY, DRAW, FILL, FRRECT, GET, INVERT, LBMP, LINE, PIE, PUT, RECT, RES, RRECT};
