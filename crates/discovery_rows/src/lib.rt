// Discovery's lent rows, of sources and of pages: whose a row is, and rows found and turned.
// discovery_pages and discovery_calls call owners and rows, discovery_reads owners.

#![tactic(auto)]

pub mod owners;
pub mod rows;

use discovery::{NAME, PAGES};

// A source: mark (0 partial, 1 listed), CID high and low, last page, reading, length of its name.
pub type HeadRow = [u64; 6];

pub type HeadRows = [HeadRow; PAGES];

// Its name, in the row of the same place.
pub type NameRow = [u8; NAME];

pub type NameRows = [NameRow; PAGES];

// A page: its owner's mark, CID high and low, its number, how many universes it has.
pub type PageRow = [u64; 5];

pub type PageRows = [PageRow; PAGES];
