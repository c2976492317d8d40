// Numbers, texts and answers written, as a replay script has them. replay and its dump print by them.

#![tactic(auto)]

pub mod answers;
pub mod print;
