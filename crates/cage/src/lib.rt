// Loads a cage into the lent tables, or refuses it and leaves them.
#![tactic(auto)]

ghost use Rattle.std.specs.Prelude.{◌≡◌};
ghost use Rattle.rules.specs.Cage.{cage_of};
ghost use Rattle.rules.specs.Calls.{load_refusal, load_call};
ghost use Rattle.tables.specs.declared.Counts.{Counts};
ghost use Rattle.tables.specs.Answers.{worked_outcome};
ghost use Rattle.tables.specs.Lent.{held, mesh_with, SameTables};
ghost use Rattle.tables.specs.Refusals.{refused};
ghost use Rattle.cage.specs.Sides.{SidesLoaded};

use tables::refusals::Refusal;
use tables::{Counts, Tables, Worked};

// Judges a cage, by the conditions 1, 16 and 2 too. Where it is not refused, its corners and links are written.
fn load_sides(tables: &mut Tables, rule: u32, cage: &[u8]) -> Result<(), Refusal>
    ensures value { (n : Counts) → refused result ≡ load_refusal rule cage.now (mesh_with n (held tables.old)) }
    ensures sides { SidesLoaded (cage_of cage.now) (refused result) (held tables.old) (held tables.new) }
    ensures lent { SameTables tables.new tables.old }
{
    let view = tables.view();
    if !soundness::tables_agree(&view) {
        return Err(Refusal::TablesDisagree);
    }
    if !points::known_rule(rule) {
        return Err(Refusal::Rule);
    }
    if !decoding::sizes_fit(cage, &view) {
        return Err(Refusal::Sizes);
    }
    let v = points::number_at(cage, 0);
    let f = points::number_at(cage, 4);
    rooms::load_in_room(tables.corners, tables.links, cage, v, f)
}

// Loads the cage, to be rounded by this rule. A refusal leaves the tables and the counts.
pub fn load(tables: &mut Tables, counts: Counts, rule: u32, cage: &[u8]) -> Worked
    ensures loaded { worked_outcome result (held tables.new) ≡ load_call rule cage.now
        (mesh_with counts (held tables.old)) }
    ensures lent { SameTables tables.new tables.old }
{
    if let Err(refusal) = load_sides(tables, rule, cage) {
        return Worked::refused(refusal, counts);
    }
    let v = points::number_at(cage, 0);
    let f = points::number_at(cage, 4);
    decoding::writing::place(cage, 3 * (v as usize), tables.positions);
    decoding::writing::clear(f as usize, tables.generations);
    decoding::writing::clear(f as usize, tables.locks);
    Worked::done(Counts {
        vertices: v,
        triangles: f,
        rule,
    })
}
