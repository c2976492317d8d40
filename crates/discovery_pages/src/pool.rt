// The pool of universes: room made in it, and what is kept moved down.
ghost use Rattle.std.specs.Prelude.{◌≡◌, not, ◌++◌, ◌+◌, ◌≤◌, eqb, length, take, drop};
ghost use Rattle.laws.specs.Table.{keep};
ghost use Rattle.discovery.specs.Discovery.{pool_length};

use discovery::POOL;

// Those from place at to the first `used` moved up by n.
pub fn open_gap(universes: &mut [u16], used: usize, at: usize, n: usize)
    requires { (at ≤ used) × (used + n ≤ length universes.old) }
    ensures { (length universes.new ≡ length universes.old)
        × (take at universes.new ≡ take at universes.old)
        × (drop (at + n) (take (used + n) universes.new) ≡ drop at (take used universes.old))
        × (drop (used + n) universes.new ≡ drop (used + n) universes.old) }
{
    for i in (at..used).rev() {
        universes[i + n] = universes[i];
    }
}

// n from place from moved down to place to.
pub fn move_down(universes: &mut [u16], to: usize, from: usize, n: usize)
    requires { (to ≤ from) × (from + n ≤ length universes.old) }
    ensures { (length universes.new ≡ length universes.old)
        × (take (to + n) universes.new ≡ take to universes.old ++ take n (drop from universes.old))
        × (drop (from + n) universes.new ≡ drop (from + n) universes.old) }
{
    if to != from {
        for i in 0..n {
            universes[to + i] = universes[from + i];
        }
    }
}

// The same, without the universe that ends; answers how many are kept.
pub fn cut_down(universes: &mut [u16], to: usize, from: usize, n: usize, universe: u16) -> usize
    requires { (to ≤ from) × (from + n ≤ length universes.old) }
    ensures { (length universes.new ≡ length universes.old)
        × (result ≡ length (keep (λ v. not (eqb v universe)) (take n (drop from universes.old))))
        × (take (to + result) universes.new
        ≡ take to universes.old ++ keep (λ v. not (eqb v universe)) (take n (drop from universes.old)))
        × (drop (from + n) universes.new ≡ drop (from + n) universes.old) }
{
    let mut kept = 0;
    for i in 0..n {
        let u = universes[from + i];
        if u != universe {
            universes[to + kept] = u;
            kept += 1;
        }
    }
    kept
}

// How many universes the pool holds at least; the constant is the definition's number.
pub fn pool_length() -> usize
    ensures { result ≡ pool_length }
{
    POOL
}
