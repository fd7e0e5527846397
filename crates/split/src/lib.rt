// Face split, rim split, flip and the base chain, on the lent tables.
#![tactic(auto)]

mod shapes;

ghost use Rattle.std.specs.Prelude.{List, [], ◌∷◌, ◌≡◌, ℕ, ◌+◌, ◌-◌, ◌*◌, ◌/◌, ◌%◌, ◌≤◌, ◌<◌, max, ℤ, length, get_or};
ghost use Rattle.points.specs.Axes.{each_axis};
ghost use Rattle.rules.specs.Split.{flip, third_of, settle, settle_all, split_at};
ghost use Rattle.rules.specs.Tables.{is_base};
ghost use Rattle.tables.specs.declared.Counts.{Counts};
ghost use Rattle.tables.specs.Lent.{topology_now, topology_with, mesh_with, held, spares_now, SameTables, SameBeside, TrianglesAgree, VerticesAgree};
ghost use Rattle.split.specs.Made.{work_now, MaySplit, Hands, replaced, BaseChain};

use points::Point;
use tables::{Counts, Tables, Triangle, View};

// The slots in use, and the splits, face and rim, and flips made so far.
#[derive(Clone, Copy)]
pub struct Work {
    pub vertices: u32,
    pub triangles: u32,
    pub splits: u32,
    pub flips: u32,
}

// A base chain: its number of odd triangles, the slot of its last triangle, how it ends, and the slots of the odd ones
// in order. Where it ends at the boundary its last triangle is odd, and `rim` is 1; else `rim` is 0.
// Kept: no heap: a chain has at most 20 odd triangles, and `odd` says how many stand in the array.
#[derive(Clone, Copy)]
pub struct Chain {
    pub odd: u32,
    pub end: u32,
    pub rim: u32,
    pub slots: [u32; 20],
}

impl Chain {
    // The splits that refining the chain's first triangle takes, `rim` of them rim splits.
    pub fn splits(self) -> u32
        ensures { result ≡ max 1 (self.odd - self.rim) }
    {
        if self.odd <= self.rim {
            1
        } else {
            self.odd - self.rim
        }
    }
}

// The base that the triangles in slots s and u share is flipped.
fn flip(tables: &mut Tables, s: u32, u: u32)
    requires { TrianglesAgree (held tables.old) × (s < length tables.old.generations.now)
        × (u < length tables.old.generations.now) × (get_or tables.old.generations.now s 0 < 255) }
    ensures flipped { (n : Counts) →
        topology_with n (held tables.new)
        ≡ flip s u (topology_with n (held tables.old)) }
    ensures rest { SameBeside tables.new tables.old }
{
    let to_s = 3 * s;
    let to_u = 3 * u;
    let x = tables.triangle_at(s);
    let y = tables.triangle_at(u);
    let pair = shapes::flipped(x, y, s, u);
    let at_s = pair[0];
    let at_u = pair[1];
    tables.relink(x.links[1], to_u);
    tables.relink(y.links[1], to_s);
    tables.store(s, at_s);
    tables.store(u, at_u);
}

// Whether side h is the base of an odd triangle.
pub fn is_base(generations: &[u8], h: u32) -> bool
    ensures { (n : Counts) (corners links : List ℕ) →
        result ≡ is_base (topology_now n corners links generations.now) h }
{
    h % 3 == 0 && tables::generation_at(generations, h / 3) % 2 == 1
}

// Where the base of s meets a base, the two triangles are flipped.
fn settle(tables: &mut Tables, work: Work, s: u32) -> Work
    requires { TrianglesAgree (held tables.old) × (s < length tables.old.generations.now)
        × (get_or tables.old.generations.now s 0 < 255) × (work.flips < 4294967295) }
    ensures settled { (rule : ℕ) (report : List ℕ) → (more : List ℕ) × (
        work_now rule more result (held tables.new)
        ≡ settle s
        (work_now rule report work (held tables.old))) }
    ensures lent { SameTables tables.new tables.old }
{
    let i = 3 * (s as usize);
    let h = tables.links[i];
    if is_base(tables.view().generations, h) {
        let after = Work {
            flips: work.flips + 1,
            ..work
        };
        flip(tables, s, h / 3);
        after
    } else {
        work
    }
}

// Three triangles in the place of x, which is in slot t: in slots t, f and f + 1. The partners of the sides 1 and 2
// of x are told their new places.
fn replace(
    tables: &mut Tables,
    t: u32,
    f: u32,
    x: Triangle,
    three: [Triangle; 3],
    to_1: u32,
    to_2: u32,
)
    requires { TrianglesAgree (held tables.old) × (t < length tables.old.generations.now)
        × (f + 2 ≤ length tables.old.generations.now) }
    ensures replaced { (n : Counts) →
        topology_with n (held tables.new)
        ≡ replaced t f x three to_1 to_2
        (topology_with n (held tables.old)) }
    ensures rest { SameBeside tables.new tables.old }
{
    let e = f + 1;
    let at_t = three[0];
    let at_f = three[1];
    let at_e = three[2];
    tables.relink(x.links[1], to_1);
    tables.relink(x.links[2], to_2);
    tables.store(t, at_t);
    tables.store(f, at_f);
    tables.store(e, at_e);
}

// The nearest third of the sum of the corners h, i and j of t.
fn third_of(tables: &Tables, t: u32, h: usize, i: usize, j: usize) -> Point
    requires { VerticesAgree tables.now.positions.now × (3 * t + 2 < length tables.now.corners.now) × (h < 3) × (i < 3) × (j < 3) }
    ensures { (n : Counts) → result ≡ each_axis (third_of h i j (mesh_with n (held tables.now)) t) }
{
    let first = 3 * (t as usize);
    let a = tables::point_at(tables.positions, tables.corners[first + h]);
    let b = tables::point_at(tables.positions, tables.corners[first + i]);
    let c = tables::point_at(tables.positions, tables.corners[first + j]);
    Point::thirds(a, b, c)
}

// The cut of the face split of t: the new vertex is placed at the centre. The answer is built last here and first in the
// rim split: another way round each split takes two to five instructions more.
fn face_cut(tables: &mut Tables, work: Work, t: u32) -> Work
    requires { ((rule : ℕ) × (report : List ℕ) ×
        MaySplit t (work_now rule report work (held tables.old)))
        × (get_or tables.old.generations.now t 0 % 2 ≡ 0) }
    ensures cut { (rule : ℕ) (report : List ℕ) → (more : List ℕ) × Hands t (work_now rule report work (held tables.old))
        (t ∷ work.triangles ∷ (work.triangles + 1) ∷ []) (work_now rule more result (held tables.new)) }
    ensures lent { SameTables tables.new tables.old }
{
    let p = work.vertices;
    let f = work.triangles;
    let centre = third_of(tables, t, 0, 1, 2);
    tables::store_point(tables.positions, p, centre);
    let x = tables.triangle_at(t);
    let three = shapes::children(x, t, f, p);
    let to_f = 3 * f;
    let to_e = 3 * (f + 1);
    replace(tables, t, f, x, three, to_f, to_e);
    tables::unlock_two(tables.locks, f);
    Work {
        vertices: p + 1,
        triangles: f + 2,
        splits: work.splits + 1,
        flips: work.flips,
    }
}

// The cut of the rim split of t: the two new vertices are placed at the thirds of its base.
fn rim_cut(tables: &mut Tables, work: Work, t: u32) -> Work
    requires { ((rule : ℕ) × (report : List ℕ) ×
        MaySplit t (work_now rule report work (held tables.old)))
        × (get_or tables.old.generations.now t 0 % 2 ≡ 1) }
    ensures cut { (rule : ℕ) (report : List ℕ) → (more : List ℕ) × Hands t (work_now rule report work (held tables.old))
        (t ∷ (work.triangles + 1) ∷ []) (work_now rule more result (held tables.new)) }
    ensures lent { SameTables tables.new tables.old }
{
    let v = work.vertices;
    let w = v + 1;
    let f = work.triangles;
    let after = Work {
        vertices: v + 2,
        triangles: f + 2,
        splits: work.splits + 1,
        flips: work.flips,
    };
    let to_t = 3 * t;
    let to_e = 3 * (f + 1);
    let first = third_of(tables, t, 0, 0, 1);
    let second = third_of(tables, t, 0, 1, 1);
    tables::store_point(tables.positions, v, first);
    tables::store_point(tables.positions, w, second);
    let x = tables.triangle_at(t);
    let three = shapes::rim_children(x, t, f, v);
    replace(tables, t, f, x, three, to_e, to_t);
    tables::unlock_two(tables.locks, f);
    after
}

// What the cut of a face split leaves is settled: t, f and e, in this order.
fn settle_three(tables: &mut Tables, work: Work, t: u32, f: u32, e: u32) -> Work
    requires { TrianglesAgree (held tables.old) × (t < length tables.old.generations.now)
        × (f < length tables.old.generations.now) × (e < length tables.old.generations.now) × (get_or tables.old.generations.now t 0 < 23)
        × (get_or tables.old.generations.now f 0 < 23) × (get_or tables.old.generations.now e 0 < 23) × (work.flips + 3 ≤ 4294967295) }
    ensures settled { (rule : ℕ) (report : List ℕ) → (more : List ℕ) × (
        work_now rule more result (held tables.new)
        ≡ settle_all (t ∷ f ∷ e ∷ [])
        (work_now rule report work (held tables.old))) }
    ensures lent { SameTables tables.new tables.old }
{
    let one = settle(tables, work, t);
    let two = settle(tables, one, f);
    settle(tables, two, e)
}

// What the cut of a rim split leaves is settled: t and e, in this order.
fn settle_two(tables: &mut Tables, work: Work, t: u32, e: u32) -> Work
    requires { TrianglesAgree (held tables.old) × (t < length tables.old.generations.now)
        × (e < length tables.old.generations.now) × (get_or tables.old.generations.now t 0 < 23) × (get_or tables.old.generations.now e 0 < 23)
        × (work.flips + 2 ≤ 4294967295) }
    ensures settled { (rule : ℕ) (report : List ℕ) → (more : List ℕ) × (
        work_now rule more result (held tables.new)
        ≡ settle_all (t ∷ e ∷ [])
        (work_now rule report work (held tables.old))) }
    ensures lent { SameTables tables.new tables.old }
{
    let one = settle(tables, work, t);
    settle(tables, one, e)
}

// The split of t, with its flips: the face split of an even triangle, the rim split of an odd one. Each has a settling
// of its own: with one for both, a face split would take 25 to 33 instructions more.
// Kept: five slices: through a lent value a split would take some 80 instructions more, and 4 to 6 where it reads the
// value first.
fn split_in(
    positions: &mut [i32],
    corners: &mut [u32],
    links: &mut [u32],
    generations: &mut [u8],
    locks: &mut [u8],
    work: Work,
    t: u32,
) -> Work
    requires { (rule : ℕ) × (report : List ℕ) × MaySplit t (work_now rule report work
        (spares_now positions.old corners.old links.old generations.old locks.old)) }
    ensures { (rule : ℕ) (report : List ℕ) → (more : List ℕ) × (
        work_now rule more result (spares_now positions.new corners.new links.new generations.new locks.new)
        ≡ split_at t (work_now rule report work
        (spares_now positions.old corners.old links.old generations.old locks.old))) }
{
    let f = work.triangles;
    let mut own = Tables {
        positions,
        corners,
        links,
        generations,
        locks,
    };
    if tables::generation_at(own.view().generations, t) % 2 == 0 {
        let cut = face_cut(&mut own, work, t);
        settle_three(&mut own, cut, t, f, f + 1)
    } else {
        let cut = rim_cut(&mut own, work, t);
        settle_two(&mut own, cut, t, f + 1)
    }
}

// The same on tables that are lent as one value.
pub fn split_at(tables: &mut Tables, work: Work, t: u32) -> Work
    requires { (rule : ℕ) × (report : List ℕ) ×
        MaySplit t (work_now rule report work (held tables.old)) }
    ensures split { (rule : ℕ) (report : List ℕ) → (more : List ℕ) × (
        work_now rule more result (held tables.new)
        ≡ split_at t (work_now rule report work (held tables.old))) }
    ensures lent { SameTables tables.new tables.old }
{
    split_in(
        tables.positions,
        tables.corners,
        tables.links,
        tables.generations,
        tables.locks,
        work,
        t,
    )
}

// The base chain of t: from an odd triangle on to the one across its base, until an even one or the boundary. Its steps
// are at most as many as the generation of t says, so that the slots have room.
pub fn base_chain(view: &View, t: u32) -> Chain
    requires { get_or view.now.generations.now t 0 ≤ 20 }
    ensures { (n : Counts) (c : List ℕ) →
        BaseChain (topology_now n c view.now.links.now view.now.generations.now) t result }
{
    let links = view.links;
    let generations = view.generations;
    let mut slots: [u32; 20] = [0; 20];
    let mut odd: u32 = 0;
    let mut end = t;
    let steps = tables::generation_at(generations, t);
    for _step in 0..steps {
        if tables::generation_at(generations, end) % 2 == 0 {
            break;
        }
        slots[odd as usize] = end;
        odd += 1;
        let across = tables::base_link(links, end);
        if across == tables::BOUNDARY {
            break;
        }
        end = across / 3;
    }
    let rim = tables::generation_at(generations, end) as u32 % 2;
    Chain {
        odd,
        end,
        rim,
        slots,
    }
}
