// The walk round a vertex, from the side where it starts, and its ring: length and entries; the sums of all rings, and
// the test of fans.
#![tactic(auto)]

ghost use Rattle.std.specs.Prelude.{◌≡◌, List, ℕ, ◌+◌, ◌*◌, ◌≤◌, length, get_or};
ghost use Rattle.rules.specs.Below.{fill};
ghost use Rattle.rules.specs.Tables.{previous, topology_of};
ghost use Rattle.rings.specs.Rings.{ring_from, goes_on, entries_at, Walkable, Meets};

use tables::BOUNDARY;
use tables::sides::{next, previous};

pub mod sums;
pub mod walks;

// What a walk round a vertex meets: how many sides, one in each triangle, and how many entries of the ring.
#[derive(Clone, Copy)]
pub struct Walked {
    pub sides: usize,
    pub entries: usize,
}

// Whether the walk from `first` goes on to side k after n sides.
fn goes_on(triangles: u32, first: usize, n: usize, k: usize) -> bool
    requires { triangles ≤ 65536 }
    ensures { result ≡ goes_on triangles first n k }
{
    let most = triangles as usize;
    n < most && (k < 3 * most && k != first)
}

// How many entries the ring has where the walk of n sides ends at k: at the boundary the last neighbour is one more.
#[tactic(auto, unfolding(crate::specs::Rings::entries_at))]
fn entries_at(n: usize, k: usize) -> usize
    requires { n ≤ 65536 }
    ensures { result ≡ entries_at n k }
{
    if k == BOUNDARY as usize { n + 1 } else { n }
}

// The side to which a turn leads from h. A read in each arm compiles to a shorter turn than one read at `previous(h)`.
fn turned(links: &[u32], triangles: u32, h: usize) -> usize
    requires { Walkable triangles h links.now }
    ensures { result ≡ get_or links.now (previous h) 0 }
{
    if h % 3 == 0 {
        return links[h + 2] as usize;
    }
    links[h - 1] as usize
}

// The walk from side `first`, with the length of its ring. It needs no corners.
pub fn walk_from(links: &[u32], triangles: u32, first: usize) -> Walked
    requires { Walkable triangles first links.now }
    ensures { Meets triangles links.now first result.sides result.entries }
{
    let mut n: usize = 0;
    let mut h = first;
    // Kept: no plainer: the walk follows the links until it is round, and n counts what it meets.
    let met = loop {
        let k = turned(links, triangles, h);
        n += 1;
        if !goes_on(triangles, first, n, k) {
            break Walked {
                sides: n,
                entries: entries_at(n, k),
            };
        }
        h = k;
    };
    met
}

// The length of the ring from side `first`.
pub fn ring_length(links: &[u32], triangles: u32, first: u32) -> u32
    requires { Walkable triangles first links.now }
    ensures { (result ≤ triangles + 1)
        × ((v : ℕ) (c g : List ℕ) → result ≡ length (ring_from (topology_of v triangles c links.now g) first)) }
{
    walk_from(links, triangles, first as usize).entries as u32
}

// The ring from side `first`, written to the front of the buffer, which has room for it.
// Kept: C lends whole tables, and the counts say how much of them is in use.
pub fn write_ring(corners: &[u32], links: &[u32], triangles: u32, first: u32, buffer: &mut [u32])
    requires walkable { Walkable triangles first links.now × (3 * triangles ≤ length corners.now) }
    requires by_index { (v : ℕ) × (g : List ℕ)
        × (length (ring_from (topology_of v triangles corners.now links.now g) first) ≤ length buffer.old) }
    ensures { (v : ℕ) (g : List ℕ) →
        let ring = ring_from (topology_of v triangles corners.now links.now g) first in
        buffer.new ≡ fill (length ring) (λ i. get_or ring i 0) buffer.old }
{
    let mut n: usize = 0;
    let mut h = first as usize;
    // Kept: no plainer: the same walk, and n counts what it writes.
    loop {
        let e = next(h);
        buffer[n] = corners[e];
        let p = previous(h);
        let k = links[p] as usize;
        n += 1;
        if k == BOUNDARY as usize {
            buffer[n] = corners[p];
            break;
        }
        if !goes_on(triangles, first as usize, n, k) {
            break;
        }
        h = k;
    }
}
