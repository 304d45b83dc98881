#![tactic(auto)]

// Cases and answers as text: standard input byte by byte, its words and numbers, and what is written of answers and slices.
pub mod answers;
pub mod input;
pub mod lines;
pub mod numbers;
pub mod output;
pub mod runs;
pub mod seen;
pub mod slices;
