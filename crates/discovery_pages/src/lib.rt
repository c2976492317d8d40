// Discovery's pages with their universes, over the rows of discovery_rows: a page put in, an owner's pages taken out, a universe cut
// from them, and the packed pool in which the universes lie.
// discovery_calls calls pages.

#![tactic(auto)]

pub mod pages;
pub mod pool;
