// Document 01, 'Discovery': its sizes, and what a page's arrival answers. The definitions stand in specs/.
#![tactic(auto)]

// "At most 64 pages held, partial and listed together": `capacity`; `take_page` of discovery_calls is proved with both.
pub const PAGES: usize = 64;

// "512 universes a page": `most-universes`; `page_arrives` of discovery_calls is proved with both.
pub const PAGE_UNIVERSES: usize = 512;

// "name over 63 | 1": `most-name`; `page_arrives` is proved with both.
pub const NAME: usize = 63;

// The pool of universes, all pages full: `pool-length`, by the function `pool_length` of discovery_pages.
pub const POOL: usize = PAGES * PAGE_UNIVERSES;

// What a page's arrival answers. This and the next are enums of their own and no Result, as document 01 gives each case its number and values.
#[derive(Clone, Copy)]
pub enum PageAnswer {
    // The page was taken; its source is not listed by it.
    Taken,
    // The source is listed.
    Listed,
    // Number 13: 64 pages are held.
    PagesFull,
}

// What the call for a page answers, whatever its lengths.
#[derive(Clone, Copy)]
pub enum PageCall {
    // The page is not too long, and arrived.
    Done(PageAnswer),
    // Number 1: a name over 63 or a list over 512, with its length; name before list.
    TooLong(usize),
}
