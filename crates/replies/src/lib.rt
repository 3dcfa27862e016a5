// Replies: which call a line stands for, and the line that answers it. An op is added in calls.rt, by an arm that makes its
// call from its numbers, and in `clip_at` of numbers.rt; an op that draws nothing in answers.rt.
#![tactic(auto)]

mod answers;
mod calls;
mod line;
mod numbers;

pub use calls::call;
pub use line::reply;
