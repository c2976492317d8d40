// Document 01, 'Discovery': sources that announce their universes in pages, partial and listed. Their rows and the pool are lent.

#![tactic(auto)]

ghost use Rattle.std.specs.Prelude.{◌≡◌, true, false, not, ◌≤◌, ◌<◌, length, take};
ghost use Rattle.std.proofs.Math.Option.{some};
ghost use Rattle.laws.specs.Table.{any};
ghost use Rattle.laws.specs.Place.{prefix};
ghost use Rattle.discovery_rows.specs.Store.{is_head_of};
ghost use Rattle.discovery_rows.specs.Rows.{owned};
ghost use Rattle.discovery.specs.Discovery.{Source, lookup, begun, extended, extend, list, noting, taken, ended, swept, capacity, most_name, most_universes};
ghost use Rattle.discovery_calls.specs.Moves.{with_source};
ghost use Rattle.discovery_calls.specs.View.{heads_of, Kept, Emptied};
ghost use Rattle.discovery_calls.specs.Promises.{lent, lent_names_shared, lent_sources_shared, known, announcement, HoldsIn, TookIn, DroppedIn, ArrivalIn, CalledIn};

use discovery::{NAME, PAGE_UNIVERSES, PAGES, PageAnswer, PageCall};
use discovery_pages::pages::{cut_pages, drop_pages, put_page};
use discovery_rows::owners::cid_of;
use discovery_rows::rows::{
    find_cid, find_expired, find_from, find_source, has_all_pages, name_row, turn_pages,
    turn_source,
};
use discovery_rows::{HeadRows, NameRows, PageRows};
use laws::{After, paste, remove_at};
use rules::Cid;

// What is known of the sources, in rows and a pool of universes that the caller lends to every call.
#[derive(Clone, Copy)]
pub struct Discovery {
    pub source_count: usize,
    pub page_count: usize,
    pub used: usize,
}

// A discovery packet's contents: a page of a source's universes.
#[derive(Clone, Copy)]
pub struct Page<'a> {
    pub cid: Cid,
    pub page: u8,
    pub last_page: u8,
    pub name: &'a [u8],
    pub list: &'a [u16],
}

// The lent parts stand one by one. As a struct of `&mut` each function would have to promise that the references stay, and the length of
// an array behind a field is not known after a call that changes it: `list_source` did not prove in five ways.
impl Discovery {
    // The source of this mark goes, with its pages. It stands nowhere before place from.
    // Its mark is a number, as it is a word of the lent rows.
    fn drop_source(
        self,
        sources: &mut HeadRows,
        names: &mut NameRows,
        pages: &mut PageRows,
        universes: &mut [u16],
        from: usize,
        mark: u64,
        cid: Cid,
    ) -> Discovery
        requires { Kept self sources.old names.old pages.old universes.old × (mark < 2)
            × (from ≤ prefix (λ row. not (owned mark cid row)) (take self.source_count sources.old)) }
        ensures { let m = lent sources names pages universes in DroppedIn mark cid self m result }
    {
        let count = self.source_count;
        let at = find_from(sources, count, from, mark, cid);
        if count <= at {
            return self;
        }
        remove_at(sources, count, at);
        remove_at(names, count, at);
        let left = drop_pages(pages, universes, self.page_count, mark, cid);
        Discovery {
            source_count: count - 1,
            page_count: left.page_count,
            used: left.used,
        }
    }

    // A source with its first page, put behind the others of its mark.
    fn add_source(
        self,
        sources: &mut HeadRows,
        names: &mut NameRows,
        pages: &mut PageRows,
        universes: &mut [u16],
        reading: u64,
        mark: u64,
        page: Page,
    ) -> Discovery
        requires { Kept self sources.old names.old pages.old universes.old × (mark < 2)
            × (self.page_count < capacity) × (length page.name.now ≤ most_name) × (length page.list.now ≤ most_universes)
            × (any (is_head_of mark page.cid) (heads_of self sources.old names.old) ≡ false) }
        ensures { let m = lent sources names pages universes in
            HoldsIn m result (with_source mark (begun reading (announcement page)) (known self m.entry)) }
    {
        let at = self.source_count;
        paste(universes, self.used, page.list);
        sources[at] = [
            mark,
            page.cid.hi,
            page.cid.lo,
            u64::from(page.last_page),
            reading,
            page.name.len() as u64,
        ];
        names[at] = name_row(page.name);
        pages[self.page_count] = [
            mark,
            page.cid.hi,
            page.cid.lo,
            u64::from(page.page),
            page.list.len() as u64,
        ];
        Discovery {
            source_count: at + 1,
            page_count: self.page_count + 1,
            used: self.used + page.list.len(),
        }
    }

    // One page more for the partial source at place at.
    fn extend_source(
        self,
        sources: &mut HeadRows,
        names: &NameRows,
        pages: &mut PageRows,
        universes: &mut [u16],
        reading: u64,
        at: usize,
        page: Page,
    ) -> Discovery
        requires { Kept self sources.old names.now pages.old universes.old
            × (self.page_count < capacity) × (length page.name.now ≤ most_name) × (length page.list.now ≤ most_universes)
            × (at ≡ prefix (λ row. not (owned 0 page.cid row)) (take self.source_count sources.old)) × (at < self.source_count) }
        ensures { let m = lent_names_shared sources names pages universes in
            ((t : Source) → lookup page.entry.cid (known self m.entry).partial ≡ some t →
            HoldsIn m result (noting (extend (extended reading (announcement page) t)) (known self m.entry))) }
    {
        put_page(
            pages,
            universes,
            self.page_count,
            self.used,
            page.cid,
            page.page,
            page.list,
        );
        let row = sources[at];
        sources[at] = [row[0], row[1], row[2], row[3], reading, row[5]];
        Discovery {
            page_count: self.page_count + 1,
            used: self.used + page.list.len(),
            ..self
        }
    }

    // The partial source is listed, in the place of the one listed before.
    fn list_source(
        self,
        sources: &mut HeadRows,
        names: &mut NameRows,
        pages: &mut PageRows,
        universes: &mut [u16],
        cid: Cid,
    ) -> Discovery
        requires { Kept self sources.old names.old pages.old universes.old
            × (any (is_head_of 0 cid) (heads_of self sources.old names.old) ≡ true) }
        ensures { let m = lent sources names pages universes in
            ((t : Source) → lookup cid (known self m.entry).partial ≡ some t →
            HoldsIn m result (noting (list t) (known self m.entry))) }
    {
        let d = self.drop_source(sources, names, pages, universes, 0, 1, cid);
        let at = find_source(sources, d.source_count, 0, cid);
        turn_source(sources, names, d.source_count, at);
        turn_pages(pages, d.page_count, cid);
        d
    }

    // A page of a source without a partial entry; a listed one stands nowhere before place from.
    fn take_first(
        self,
        sources: &mut HeadRows,
        names: &mut NameRows,
        pages: &mut PageRows,
        universes: &mut [u16],
        reading: u64,
        from: usize,
        page: Page,
    ) -> After<Discovery, PageAnswer>
        requires { Kept self sources.old names.old pages.old universes.old
            × (self.page_count < capacity) × (length page.name.now ≤ most_name) × (length page.list.now ≤ most_universes)
            × (any (is_head_of 0 page.cid) (heads_of self sources.old names.old) ≡ false)
            × (from ≤ prefix (λ row. not (owned 1 page.cid row)) (take self.source_count sources.old)) }
        ensures { let m = lent sources names pages universes in
            TookIn m result (taken reading (announcement page) (known self m.entry)) }
    {
        if page.page == 0 && page.last_page == 0 {
            let d = self.drop_source(sources, names, pages, universes, from, 1, page.cid);
            let left = d.add_source(sources, names, pages, universes, reading, 1, page);
            After {
                left,
                answer: PageAnswer::Listed,
            }
        } else {
            let left = self.add_source(sources, names, pages, universes, reading, 0, page);
            After {
                left,
                answer: PageAnswer::Taken,
            }
        }
    }

    // A further page of the partial source at place at.
    fn take_next(
        self,
        sources: &mut HeadRows,
        names: &mut NameRows,
        pages: &mut PageRows,
        universes: &mut [u16],
        reading: u64,
        at: usize,
        page: Page,
    ) -> After<Discovery, PageAnswer>
        requires { Kept self sources.old names.old pages.old universes.old
            × (self.page_count < capacity) × (length page.name.now ≤ most_name) × (length page.list.now ≤ most_universes)
            × (at ≡ prefix (λ row. not (owned 0 page.cid row)) (take self.source_count sources.old)) × (at < self.source_count) }
        ensures { let m = lent sources names pages universes in
            TookIn m result (taken reading (announcement page) (known self m.entry)) }
    {
        let first_last_page = sources[at][3];
        let d = self.extend_source(sources, names, pages, universes, reading, at, page);
        if has_all_pages(pages, d.page_count, page.cid, first_last_page) {
            let left = d.list_source(sources, names, pages, universes, page.cid);
            After {
                left,
                answer: PageAnswer::Listed,
            }
        } else {
            After {
                left: d,
                answer: PageAnswer::Taken,
            }
        }
    }

    // A page that is not too long: 13 first, then its own rules.
    fn take_page(
        self,
        sources: &mut HeadRows,
        names: &mut NameRows,
        pages: &mut PageRows,
        universes: &mut [u16],
        reading: u64,
        page: Page,
    ) -> After<Discovery, PageAnswer>
        requires { Kept self sources.old names.old pages.old universes.old
            × (length page.name.now ≤ most_name) × (length page.list.now ≤ most_universes) }
        ensures { let m = lent sources names pages universes in
            ArrivalIn self m reading (announcement page) result }
    {
        if PAGES <= self.page_count {
            return After {
                left: self,
                answer: PageAnswer::PagesFull,
            };
        }
        let count = self.source_count;
        let from = find_cid(sources, count, page.cid);
        let at = find_from(sources, count, from, 0, page.cid);
        if count <= at {
            self.take_first(sources, names, pages, universes, reading, from, page)
        } else {
            self.take_next(sources, names, pages, universes, reading, at, page)
        }
    }

    // A page arrives at this reading.
    pub fn page_arrives(
        self,
        sources: &mut HeadRows,
        names: &mut NameRows,
        pages: &mut PageRows,
        universes: &mut [u16],
        reading: u64,
        page: Page,
    ) -> After<Discovery, PageCall>
        requires { Kept self sources.old names.old pages.old universes.old }
        ensures { let m = lent sources names pages universes in
            CalledIn self m reading (announcement page) result }
    {
        let length = page.name.len();
        if NAME < length {
            return After {
                left: self,
                answer: PageCall::TooLong(length),
            };
        }
        let count = page.list.len();
        if PAGE_UNIVERSES < count {
            return After {
                left: self,
                answer: PageCall::TooLong(count),
            };
        }
        let a = self.take_page(sources, names, pages, universes, reading, page);
        After {
            left: a.left,
            answer: PageCall::Done(a.answer),
        }
    }

    // Nothing is known, whatever the lent memory holds.
    pub fn new() -> Discovery
        ensures { Emptied result }
    {
        Discovery {
            source_count: 0,
            page_count: 0,
            used: 0,
        }
    }

    // All sources are forgotten.
    pub fn clear(self) -> Discovery
        ensures { Emptied result }
    {
        Discovery::new()
    }

    // A universe ends: it goes from the listed source's pages.
    pub fn terminate_universe(
        self,
        sources: &HeadRows,
        names: &NameRows,
        pages: &mut PageRows,
        universes: &mut [u16],
        cid: Cid,
        universe: u16,
    ) -> Discovery
        requires { Kept self sources.now names.now pages.old universes.old }
        ensures { let m = lent_sources_shared sources names pages universes in
            HoldsIn m result (ended cid universe (known self m.entry)) }
    {
        let used = cut_pages(pages, universes, self.page_count, cid, universe);
        Discovery { used, ..self }
    }

    // The sources of this age or older go, partial and listed.
    pub fn remove_expired_sources(
        self,
        sources: &mut HeadRows,
        names: &mut NameRows,
        pages: &mut PageRows,
        universes: &mut [u16],
        time: u64,
        reading: u64,
    ) -> Discovery
        requires { Kept self sources.old names.old pages.old universes.old }
        ensures { let m = lent sources names pages universes in
            HoldsIn m result (swept time reading (known self m.entry)) }
    {
        let mut d = self;
        let mut at = find_expired(sources, d.source_count, time, reading);
        while at < d.source_count {
            let row = sources[at];
            let cid = cid_of(&row);
            d = d.drop_source(sources, names, pages, universes, 0, row[0], cid);
            at = find_expired(sources, d.source_count, time, reading);
        }
        d
    }
}
