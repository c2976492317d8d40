// Document 01, 'The receiver': the listened universes, ascending in lent memory.

#![tactic(auto)]

ghost use Rattle.std.specs.Prelude.{◌≡◌, [], ◌∷◌, take, find, not};
ghost use Rattle.rules.specs.Universe.{legal};
ghost use Rattle.model.specs.State.{listens};
ghost use Rattle.listening.specs.View.{Kept, listened_of, listened, spot_of, Stands, Fresh, Joins, Listens, Mutes};
ghost use Rattle.model.specs.Step.{joined_by};

use laws::{After, insert_at, remove_at};
use model::{ListenAnswer, MuteAnswer};
use rules::is_universe_in_range;

// Universe discovery is sent there.
pub const E131_DISCOVERY_UNIVERSE: u16 = 64214;

// Universes that can be listened to.
pub const LISTENED: usize = 1024;

// The memory that a caller lends for them.
pub type ListenedUniverses = [u16; LISTENED];

// The lent rows hold the universes in ascending order; the first count are in use.
#[derive(Clone, Copy)]
pub struct Listened {
    pub count: usize,
}

// Where this universe stands among the first n, or would be put in.
fn find(rows: &ListenedUniverses, n: usize, universe: u16) -> Result<usize, usize>
    requires { Kept (listened n) rows.now }
    ensures { result ≡ spot_of universe (take n rows.now) }
{
    let at = rows[..n].partition_point(|row| *row < universe);
    if at < n && rows[at] == universe {
        Ok(at)
    } else {
        Err(at)
    }
}

// A universe put in, unless it stands there; without room for it, nothing changes. Answers the count.
fn join(rows: &mut ListenedUniverses, n: usize, universe: u16) -> Option<usize>
    requires { Kept (listened n) rows.old }
    ensures { Joins universe n rows.old result rows.new }
{
    let Err(at) = find(rows, n, universe) else {
        return Some(n);
    };
    if n < LISTENED {
        insert_at(rows, n, at, universe);
        Some(n + 1)
    } else {
        None
    }
}

// Universes put in one by one, until one finds no room.
fn join_all(rows: &mut ListenedUniverses, n: usize, universes: &[u16]) -> Option<usize>
    requires { Kept (listened n) rows.old }
    ensures { Stands result (joined_by universes.now (take n rows.old)) rows.new }
{
    let mut count = n;
    for universe in universes {
        count = join(rows, count, *universe)?;
    }
    Some(count)
}

// The first of the universes that is out of range.
fn first_illegal(universes: &[u16]) -> Option<u16>
    ensures { result ≡ find (λ u. not (legal u)) universes.now }
{
    universes
        .iter()
        .copied()
        .find(|universe| !is_universe_in_range(*universe))
}

impl Listened {
    // A fresh receiver listens to the discovery universe alone.
    pub fn new(rows: &mut ListenedUniverses) -> Listened
        ensures { Fresh result rows.new }
    {
        rows[0] = E131_DISCOVERY_UNIVERSE;
        Listened { count: 1 }
    }

    pub fn is_listening(self, rows: &ListenedUniverses, universe: u16) -> bool
        requires { Kept self rows.now }
        ensures { result ≡ listens universe (listened_of self rows.now) }
    {
        find(rows, self.count, universe).is_ok()
    }

    // What a step does with a synchronisation address: `listen_universes` of one.
    pub fn listen_universe(
        self,
        rows: &mut ListenedUniverses,
        universe: u16,
    ) -> After<Listened, ListenAnswer>
        requires { Kept self rows.old }
        ensures { Listens (universe ∷ []) self rows.old result rows.new }
    {
        if !is_universe_in_range(universe) {
            return After {
                left: self,
                answer: ListenAnswer::IllegalUniverse(universe),
            };
        }
        match join(rows, self.count, universe) {
            Some(count) => After {
                left: Listened { count },
                answer: ListenAnswer::Listening,
            },
            None => After {
                left: self,
                answer: ListenAnswer::ListenedFull,
            },
        }
    }

    // All are tested before any is added; they are put into a copy, which counts only if all find room.
    pub fn listen_universes(
        self,
        rows: &mut ListenedUniverses,
        universes: &[u16],
    ) -> After<Listened, ListenAnswer>
        requires { Kept self rows.old }
        ensures { Listens universes.now self rows.old result rows.new }
    {
        if let Some(universe) = first_illegal(universes) {
            return After {
                left: self,
                answer: ListenAnswer::IllegalUniverse(universe),
            };
        }
        let mut trial = *rows;
        match join_all(&mut trial, self.count, universes) {
            Some(count) => {
                *rows = trial;
                After {
                    left: Listened { count },
                    answer: ListenAnswer::Listening,
                }
            }
            None => After {
                left: self,
                answer: ListenAnswer::ListenedFull,
            },
        }
    }

    // 2 for an illegal universe, then 3 for one that isn't listened to.
    pub fn mute_universe(
        self,
        rows: &mut ListenedUniverses,
        universe: u16,
    ) -> After<Listened, MuteAnswer>
        requires { Kept self rows.old }
        ensures { Mutes universe self rows.old result rows.new }
    {
        if !is_universe_in_range(universe) {
            return After {
                left: self,
                answer: MuteAnswer::IllegalUniverse(universe),
            };
        }
        match find(rows, self.count, universe) {
            Ok(at) => {
                remove_at(rows, self.count, at);
                After {
                    left: Listened {
                        count: self.count - 1,
                    },
                    answer: MuteAnswer::Muted,
                }
            }
            Err(_) => After {
                left: self,
                answer: MuteAnswer::UniverseNotRegistered(universe),
            },
        }
    }
}
