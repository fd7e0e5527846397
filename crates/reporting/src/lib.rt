// The refinement of one triangle along its base chain, with a report of the slots that it writes.
#![tactic(auto)]

ghost use Rattle.std.specs.Prelude.{true, List, [], ◌∷◌, ◌≡◌, ℕ, ◌+◌, ◌-◌, ◌*◌, ◌/◌, ◌≤◌, ◌<◌, leb, ℤ, length, get_or};
ghost use Rattle.theory.proofs.Calls.Carried.{RefineFound};
ghost use Rattle.theory.proofs.Splits.After.{is_flipped, is_second_flipped, flip_after, split_after};
ghost use Rattle.theory.proofs.Splits.Flipped.{pair_at};
ghost use Rattle.rules.specs.Split.{at_first, refine};
ghost use Rattle.tables.specs.declared.Counts.{Counts};
ghost use Rattle.tables.specs.Lent.{held, topology_now, topology_with, mesh_now, mesh_with, SameTables};
ghost use Rattle.split.specs.Made.{work_now, BaseChain};
ghost use Rattle.reporting.specs.Told.{Tells, Told};

use split::{Chain, Work};
use tables::{Counts, Tables, View};

// Tells the slots of the split of t: its own, and then the new ones.
fn tell_slots(report: &mut [u32], at: usize, t: u32, f: u32) -> usize
    requires { (at + 3 ≤ length report.old) × (f < 4294967295) }
    ensures { Tells (t ∷ f ∷ (f + 1) ∷ []) report.old report.new at result }
{
    report[at] = t;
    report[at + 1] = f;
    report[at + 2] = f + 1;
    at + 3
}

// Whether child c of a split was flipped, by the generations that are left.
fn is_flipped(generations: &[u8], c: u32) -> bool
    requires { c < length generations.now }
    ensures { result ≡ is_flipped generations.now c }
{
    let slot = c as usize;
    generations[slot] % 2 == 0
}

// Whether the second child f of the split of t was. Where this was a rim split, f is even without a flip; there alone
// its side 2 leads to side 2 of t.
fn is_second_flipped(links: &[u32], generations: &[u8], t: u32, f: u32) -> bool
    requires { (f < length generations.now) × (3 * f + 2 < length links.now) × (t < 65536) }
    ensures { result ≡ is_second_flipped links.now generations.now t f }
{
    let side = 3 * (f as usize) + 2;
    is_flipped(generations, f) && links[side] != 3 * t + 2
}

// Tells the flip of child c, if there was one: with the triangle that its side 1 leads to.
// Kept: no plainer: its caller would test for the flip in three places.
fn tell_flip(links: &[u32], c: u32, flipped: bool, report: &mut [u32], at: usize) -> usize
    requires { (3 * c + 1 < length links.now)
        × (at + length (flip_after links.now flipped c) ≤ length report.old) }
    ensures { Tells (flip_after links.now flipped c) report.old report.new
        at result }
{
    if !flipped {
        return at;
    }
    let side = 3 * (c as usize) + 1;
    let u = links[side] / 3;
    report[at] = c;
    report[at + 1] = u;
    at + 2
}

// Tells the split of t into t, f and f + 1, and its flips, by the tables that it has left, if it is to be told. To look
// before the split at the bases that the three are to meet would take more: a division for each, flipped or not.
// Kept: no plainer: its caller would test for it in two places.
fn tell_split(
    tables: &Tables,
    t: u32,
    f: u32,
    telling: bool,
    report: &mut [u32],
    at: usize,
) -> usize
    requires { (t < length tables.now.generations.now) × (f + 1 < length tables.now.generations.now)
        × (3 * length tables.now.generations.now ≤ length tables.now.links.now) × (length tables.now.generations.now ≤ 65536)
        × (telling ≡ true → at + length (split_after tables.now.links.now tables.now.generations.now t f) ≤ length report.old) }
    ensures { «telling» ≡ true → Tells (split_after tables.now.links.now tables.now.generations.now t f)
        report.old report.new at result }
{
    if !telling {
        return at;
    }
    let links = &*tables.links;
    let generations = &*tables.generations;
    let e = f + 1;
    let slots = tell_slots(report, at, t, f);
    let first = tell_flip(links, t, is_flipped(generations, t), report, slots);
    let second = tell_flip(
        links,
        f,
        is_second_flipped(links, generations, t, f),
        report,
        first,
    );
    tell_flip(links, e, is_flipped(generations, e), report, second)
}

// How much of a report the flip at side h takes, if there is one.
fn flip_length(view: &View, h: usize) -> usize
    requires { h < length view.now.links.now }
    ensures { ((n : Counts) (c : List ℕ) →
        let m = topology_now n c view.now.links.now view.now.generations.now in
        result ≡ length (pair_at m 0 h)) × (result ≤ 2) }
{
    if split::is_base(view.generations, view.links[h]) {
        return 2;
    }
    0
}

// The length of the report of a refine along this chain: after the first split each flips once.
fn report_length(view: &View, chain: Chain) -> usize
    requires { 3 * chain.end + 2 < length view.now.links.now }
    ensures { (t : ℕ) (n : Counts) (p : List ℤ) (c k : List ℕ) →
        let m = mesh_now n p c view.now.links.now view.now.generations.now k in
        RefineFound t m → BaseChain m.topology t chain → result ≡ length (refine t (at_first m)).report }
{
    let first = 3 * (chain.end as usize);
    let own = flip_length(view, first);
    let second = flip_length(view, first + 1);
    let third = flip_length(view, first + 2);
    5 * (chain.splits() as usize) - 2 + own + second + third
}

// So many entries do for the report of every refine.
const LONGEST: usize = 54;

// Whether the report of a refine along this chain has at most so many entries. The longest do for every refine, and
// each split takes some.
pub fn fits(view: &View, chain: Chain, entries: usize) -> bool
    requires { 3 * chain.end + 2 < length view.now.links.now }
    ensures { (t : ℕ) (n : Counts) (p : List ℤ) (c k : List ℕ) →
        let m = mesh_now n p c view.now.links.now view.now.generations.now k in
        RefineFound t m → BaseChain m.topology t chain
        → result ≡ leb (length (refine t (at_first m)).report) entries }
{
    if LONGEST <= entries {
        return true;
    }
    if entries < chain.splits() as usize {
        return false;
    }
    report_length(view, chain) <= entries
}

// The triangle across the base of the last of so many odd triangles of a chain.
fn across_last(tables: &Tables, slots: &[u32; 20], odd: u32) -> u32
    requires { (0 < odd) × (odd < 20) × (3 * get_or slots.now (odd - 1) 0 < length tables.now.links.now) }
    ensures { result ≡ get_or tables.now.links.now (3 * get_or slots.now (odd - 1) 0) 0 / 3 }
{
    let i = odd as usize - 1;
    let h = 3 * (slots[i] as usize);
    tables.links[h] / 3
}

// The refinement of t, from the end of its base chain upwards. An odd triangle keeps its slot and its place in the
// chain until it is flipped. What lies across its base is read anew for each split, as a flip may move it to another
// slot. The splits are told from place `at` of the report on, if it has room for all of them. A plain call has no room
// for any, which is tested once and not for each split. The first split has a call of its own: with one call for all,
// split_at would be inlined, and each split would take 20 to 30 instructions more.
// Kept: no plainer: a From for the work at its start would be used here alone.
pub fn refine(
    tables: &mut Tables,
    counts: Counts,
    t: u32,
    chain: Chain,
    report: &mut [u32],
    at: usize,
) -> Work
    requires { RefineFound t (mesh_with counts (held tables.old))
        × BaseChain (topology_with counts (held tables.old)) t chain }
    ensures refined { let w = refine t (at_first (mesh_with counts (held tables.old))) in
        (work_now counts.rule w.report result (held tables.new)
        ≡ w) × Told w.report report.old report.new at }
    ensures lent { SameTables tables.new tables.old }
{
    let slots = chain.slots;
    let start = Work {
        vertices: counts.vertices,
        triangles: counts.triangles,
        splits: 0,
        flips: 0,
    };
    let splits = chain.splits();
    let telling = fits(&tables.view(), chain, report.len().saturating_sub(at));
    let mut work = split::split_at(tables, start, chain.end);
    let mut told = tell_split(tables, chain.end, start.triangles, telling, report, at);
    for left in (1..splits).rev() {
        let end = across_last(tables, &slots, left);
        let f = work.triangles;
        work = split::split_at(tables, work, end);
        told = tell_split(tables, end, f, telling, report, told);
    }
    work
}
