// The test before vertices are moved by their rings, for a whole step and limit positions, and the moves of a step.
#![tactic(auto)]

ghost use Rattle.std.specs.Prelude.{not, List, ◌≡◌, ℕ, ◌*◌, ◌≤◌, eqb, length, get_or};
ghost use Rattle.rules.specs.Below.{all};
ghost use Rattle.rules.specs.Calls.{closed_even};
ghost use Rattle.rules.specs.Step.{move_vertices};
ghost use Rattle.rules.specs.Tables.{Mesh, topology_of, boundary};
ghost use Rattle.moving.specs.Moves.{Movable};

use rings::sums::RingSum;
use tables::{BOUNDARY, Counts};

// Whether none of the first n sides is on the boundary.
// Kept: C lends whole tables, and the counts say how much of them is in use.
#[tactic(auto, using(theory::proofs::Numbers::Decide::all_and), unfolding(rules::specs::Below::all))]
fn none_on_boundary(links: &[u32], n: usize) -> bool
    requires { n ≤ length links.now }
    ensures { result ≡ all n (λ h. not (eqb (get_or links.now h 0) boundary)) }
{
    let mut inner = true;
    for link in &links[..n] {
        inner &= *link != BOUNDARY;
    }
    inner
}

// Whether the first n triangles are of generation g.
// Kept: C lends whole tables, and the counts say how much of them is in use.
#[tactic(auto, using(theory::proofs::Numbers::Decide::all_and), unfolding(rules::specs::Below::all))]
fn all_of(generations: &[u8], n: usize, g: u8) -> bool
    requires { n ≤ length generations.now }
    ensures { result ≡ all n (λ t. eqb (get_or generations.now t 0) g) }
{
    let mut same = true;
    for generation in &generations[..n] {
        same &= *generation == g;
    }
    same
}

// Whether no side is on the boundary and all triangles are of one even generation.
// Kept: C lends whole tables, and the counts say how much of them is in use.
#[tactic(auto, unfolding(rules::specs::Calls::closed_even))]
pub fn closed_even(links: &[u32], generations: &[u8], triangles: u32) -> bool
    requires { (triangles ≤ 65536) × (3 * triangles ≤ length links.now) × (triangles ≤ length generations.now) }
    ensures { (v : ℕ) (c : List ℕ) →
        result ≡ closed_even (topology_of v triangles c links.now generations.now) }
{
    let n = triangles as usize;
    if !none_on_boundary(links, 3 * n) {
        return false;
    }
    let g = tables::generation_at(generations, 0);
    if !all_of(generations, n, g) {
        return false;
    }
    g % 2 == 0
}

// Each vertex moved by the length and the sum of its ring, and by the rule.
// Kept: no plainer: `limits::write_all` writes a table beside the positions, and this the positions themselves.
pub fn move_all(positions: &mut [i32], counts: Counts, rings: &[RingSum])
    requires { (m : Mesh) × Movable counts.vertices counts.rule m positions.old rings.now }
    ensures { (m : Mesh) →
        Movable counts.vertices counts.rule m positions.old rings.now
        → positions.new ≡ move_vertices counts.vertices m positions.old }
{
    for v in 0..counts.vertices {
        let ring = rings[v as usize];
        let n = ring.length as usize;
        let p = tables::point_in(positions, v);
        tables::store_point(positions, v, p.moved(counts.rule, n, ring.sum));
    }
}
