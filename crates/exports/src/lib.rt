// What the comparisons of numbers, angles, blends and cuts link: each function, by name.
#![tactic(auto)]

mod angles;
mod blends;
mod cuts;
mod numbers;
