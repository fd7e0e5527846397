// Triangles with a corner in a box, refined one after the other. The wanted ones are marked, and after each refine the
// marks are put right for the slots that it wrote.
#![tactic(auto)]

ghost use Rattle.std.specs.Prelude.{false, ◌||◌, List, ◌≡◌, ℕ, ◌+◌, ◌*◌, ◌/◌, ◌≤◌, ◌<◌, length, get_or};
ghost use Rattle.marks.specs.Marks.{marked};
ghost use Rattle.points.specs.Axes.{in_box, box_of};
ghost use Rattle.rules.specs.Boxes.{Box, wanted, refine_in_box};
ghost use Rattle.rules.specs.Calls.{refine_call};
ghost use Rattle.rules.specs.Sound.{Sound};
ghost use Rattle.rules.specs.Spares.{Spares};
ghost use Rattle.rules.specs.Split.{at_first, refine};
ghost use Rattle.rules.specs.Tables.{Mesh};
ghost use Rattle.tables.specs.Answers.{worked_outcome};
ghost use Rattle.tables.specs.declared.Counts.{Counts};
ghost use Rattle.tables.specs.Lent.{topology_now, mesh_with, held, SameTables, point_in};
ghost use Rattle.reporting.specs.Told.{Told, told_unless};
ghost use Rattle.refining.specs.Batches.{Begins};
ghost use Rattle.wanting.specs.Wanting.{Looks, SeenFrom, MarksFit, Marking, Stale, nearby, MarkedFrom};
ghost use Rattle.wanting.specs.Wanting.{Mended, Marked, Unmarked, Unseen, Boxes};

use points::Point;
use refining::spares::Batch;
use tables::{Counts, Tables, Worked};

// Whether vertex v lies in the box, its faces included.
fn in_box(positions: &[i32], v: u32, low: Point, high: Point) -> bool
    requires { v < length positions.now / 3 }
    ensures { result ≡ in_box low high (point_in positions.now v) }
{
    let p = tables::point_in(positions, v);
    p.in_box(low, high)
}

// Marks the vertices that lie in the box, of the last in use, none of which is marked yet.
// Kept: C lends whole tables, and the counts say how much of them is in use.
fn mark_inside(
    positions: &[i32],
    from: u32,
    vertices: u32,
    low: Point,
    high: Point,
    inside: &mut [u64],
)
    requires { (vertices ≤ length positions.now / 3) × (vertices ≤ 64 * length inside.old)
        × ((v : ℕ) → from ≤ v → marked inside.old v ≡ false) }
    ensures { SeenFrom from vertices low high positions.now inside.old inside.new }
{
    for v in from..vertices {
        if in_box(positions, v, low, high) {
            marks::put(inside, v, true);
        }
    }
}

// Whether triangle t has a marked corner.
fn has_marked_corner(corners: &[u32], inside: &[u64], t: u32) -> bool
    requires { (3 * t + 2 < length corners.now)
        × ((i : ℕ) → i < 3 → get_or corners.now (3 * t + i) 0 < 64 * length inside.now) }
    ensures { result ≡ (marked inside.now (get_or corners.now (3 * t + 0) 0)
        || marked inside.now (get_or corners.now (3 * t + 1) 0)
        || marked inside.now (get_or corners.now (3 * t + 2) 0)) }
{
    let i = 3 * (t as usize);
    marks::is_marked(inside, corners[i])
        || marks::is_marked(inside, corners[i + 1])
        || marks::is_marked(inside, corners[i + 2])
}

// Whether triangle t is below the generation and has a corner in the box.
fn is_wanted(corners: &[u32], generations: &[u8], inside: &[u64], t: u32, below: u32) -> bool
    requires { (b : Box) × (m : Mesh) ×
        Looks b m corners.now generations.now inside.now below × (t < m.topology.triangles) }
    ensures { (b : Box) (m : Mesh) →
        Looks b m corners.now generations.now inside.now below
        → t < m.topology.triangles → result ≡ wanted b m t }
{
    if !has_marked_corner(corners, inside, t) {
        return false;
    }
    (tables::generation_at(generations, t) as u32) < below
}

// Marks the wanted ones of the last slots in use, none of which is marked yet.
fn mark_from(
    corners: &[u32],
    generations: &[u8],
    inside: &[u64],
    from: u32,
    triangles: u32,
    below: u32,
    bits: &mut [u64],
    words: &mut [u64],
)
    requires { ((b : Box) × (m : Mesh) ×
        Looks b m corners.now generations.now inside.now below
        × MarksFit m bits.old words.old × (triangles ≡ m.topology.triangles))
        × ((j : ℕ) → from ≤ j → marked bits.old j ≡ false) }
    ensures { (b : Box) (m : Mesh) →
        Looks b m corners.now generations.now inside.now below
        → triangles ≡ m.topology.triangles
        → MarkedFrom from b m bits.old bits.new words.new }
{
    for t in from..triangles {
        if is_wanted(corners, generations, inside, t, below) {
            marks::mark(bits, words, t, true);
        }
    }
}

// Puts the marks of listed slots right.
fn mend(
    corners: &[u32],
    generations: &[u8],
    inside: &[u64],
    triangles: u32,
    slots: &[u32],
    below: u32,
    bits: &mut [u64],
    words: &mut [u64],
)
    requires { (b : Box) × (m : Mesh) ×
        Looks b m corners.now generations.now inside.now below
        × MarksFit m bits.old words.old × (triangles ≡ m.topology.triangles) }
    ensures { (b : Box) (m : Mesh) →
        Looks b m corners.now generations.now inside.now below
        → triangles ≡ m.topology.triangles
        → Mended (length slots.now) slots.now b m bits.old bits.new words.new }
{
    for t in slots {
        if *t < triangles {
            let on = is_wanted(corners, generations, inside, *t, below);
            marks::mark(bits, words, *t, on);
        }
    }
}

// Triangle t and those beside it. Where a side is on the boundary, the slot is past every table.
fn with_neighbours(links: &[u32], t: u32) -> [u32; 4]
    requires { 3 * t + 2 < length links.now }
    ensures { (n : Counts) (c g : List ℕ) → result ≡ nearby (topology_now n c links.now g) t }
{
    let i = 3 * (t as usize);
    [t, links[i] / 3, links[i + 1] / 3, links[i + 2] / 3]
}

// Puts the marks right after a refine, for the slots that it wrote: the new ones, and of those before the odd triangles
// of the base chain, its end and those beside the end.
fn mend_after(
    corners: &[u32],
    generations: &[u8],
    inside: &[u64],
    before: u32,
    triangles: u32,
    odd: &[u32],
    beside: &[u32; 4],
    below: u32,
    bits: &mut [u64],
    words: &mut [u64],
)
    requires { (b : Box) × (t : ℕ) × (x : Mesh) × (y : Mesh) ×
        Stale b t x y odd.now beside.now bits.old words.old
        × Looks b y corners.now generations.now inside.now below
        × (before ≡ x.topology.triangles) × (triangles ≡ y.topology.triangles) }
    ensures { (b : Box) (t : ℕ) (x y : Mesh) →
        Stale b t x y odd.now beside.now bits.old words.old
        → Looks b y corners.now generations.now inside.now below
        → before ≡ x.topology.triangles → triangles ≡ y.topology.triangles
        → Marking b y bits.new words.new }
{
    mark_from(
        corners,
        generations,
        inside,
        before,
        triangles,
        below,
        bits,
        words,
    );
    mend(
        corners,
        generations,
        inside,
        triangles,
        beside,
        below,
        bits,
        words,
    );
    mend(
        corners,
        generations,
        inside,
        triangles,
        odd,
        below,
        bits,
        words,
    );
}

// Refines triangle t of a sound mesh, told from place `at` of the report on, and puts the marks right.
// Kept: the C interface: a refine answers the number of its refusal, 0 for none.
fn refine_marked(
    tables: &mut Tables,
    counts: Counts,
    t: u32,
    low: Point,
    high: Point,
    below: u32,
    inside: &mut [u64],
    bits: &mut [u64],
    words: &mut [u64],
    report: &mut [u32],
    at: usize,
) -> Worked
    requires { Marked (box_of low high below)
        (mesh_with counts (held tables.old))
        inside.old bits.old words.old
        × Sound (mesh_with counts (held tables.old))
        × (t < counts.triangles) }
    ensures refined { worked_outcome result (held tables.new)
        ≡ refine_call t (mesh_with counts (held tables.old)) }
    ensures marked { result.refusal ≡ 0 → Marked (box_of low high below)
        (mesh_with result.counts (held tables.new)) inside.new bits.new words.new }
    ensures told { Told (told_unless result.refusal (refine t (at_first (mesh_with counts (held tables.old)))).report)
        report.old report.new at }
    ensures lent { SameTables tables.new tables.old }
{
    let before = tables.view();
    let chain = split::base_chain(&before, t);
    let slots = chain.slots;
    let near = with_neighbours(before.links, chain.end);
    let done = refining::refine(tables, counts, t, Ok(()), report, at);
    if done.refusal == 0 {
        let reached = done.counts;
        let after = tables.view();
        mark_inside(
            after.positions,
            counts.vertices,
            reached.vertices,
            low,
            high,
            inside,
        );
        mend_after(
            after.corners,
            after.generations,
            inside,
            counts.triangles,
            reached.triangles,
            &slots[..chain.odd as usize],
            &near,
            below,
            bits,
            words,
        );
    }
    done
}

// Refines the lowest wanted triangle until none is left, in tables that hold the mesh. Nothing is marked at first. The
// turns are told where the report has room.
// Kept: no plainer: the next triangle is the lowest mark that a refine leaves, and its number says if there is one.
pub fn refine_wanted(
    tables: &mut Tables,
    counts: Counts,
    low: Point,
    high: Point,
    below: u32,
    inside: &mut [u64],
    bits: &mut [u64],
    words: &mut [u64],
    report: &mut [u32],
) -> Batch
    requires { ((m : Mesh) × (s : Spares) ×
        Begins m s m.topology.generations
        (mesh_with counts (held tables.old)))
        × Unmarked (length tables.old.generations.now) bits.old words.old
        × Unseen (length tables.old.positions.now / 3) inside.old }
    ensures boxed { (m : Mesh) (s : Spares) →
        Begins m s m.topology.generations (mesh_with counts (held tables.old))
        → Boxes (box_of low high below) m s result (mesh_with result.counts (held tables.new))
        × Told (refine_in_box (box_of low high below) m).work.report report.old report.new 0 }
    ensures lent { SameTables tables.new tables.old }
{
    let first = tables.view();
    mark_inside(first.positions, 0, counts.vertices, low, high, inside);
    mark_from(
        first.corners,
        first.generations,
        inside,
        0,
        counts.triangles,
        below,
        bits,
        words,
    );
    let mut handled: usize = 0;
    let mut splits: u32 = 0;
    let mut flips: u32 = 0;
    let mut reached = counts;
    let mut t = marks::lowest(bits, words);
    while t < reached.triangles {
        let done = refine_marked(
            tables,
            reached,
            t,
            low,
            high,
            below,
            inside,
            bits,
            words,
            report,
            3 * (splits as usize) + 2 * (flips as usize),
        );
        reached = done.counts;
        if done.refusal != 0 {
            return Batch {
                refusal: done.refusal,
                splits,
                flips,
                handled,
                counts: reached,
            };
        }
        splits += done.splits;
        flips += done.flips;
        handled += 1;
        t = marks::lowest(bits, words);
    }
    Batch {
        refusal: 0,
        splits,
        flips,
        handled,
        counts: reached,
    }
}
