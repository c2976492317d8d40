// The words of a replay script: lines and their fields read as commands.
// replay carries the commands out: it calls lines and parse.

#![tactic(auto)]

pub mod line_fields;
pub mod lines;
pub mod parse;
