// The refusal of a cage whose sizes fit, in working room that is lent; where there is none, its sides are written.
#![tactic(auto)]

ghost use Rattle.std.specs.Prelude.{◌≡◌, IfOk};
ghost use Rattle.rules.specs.Cage.{cage_of};
ghost use Rattle.tables.specs.Refusals.{refused};
ghost use Rattle.judging.specs.Answers.{Refuses, SideRoom, SidesLeft};
ghost use Rattle.judging.specs.Loading.{Sized, WorkingRoom, Holds};

use tables::refusals::Refusal;

// Judges a cage whose sizes fit: where it is not refused, its origins and partners are held.
// Kept: no heap: the room is arrays of fixed size, of which a cage takes the front.
fn judge(
    cage: &[u8],
    vertices: u32,
    triangles: u32,
    origins: &mut [u32],
    partners: &mut [u32],
    heads: &mut [u32],
    nexts: &mut [u32],
    slots: &mut [u32],
) -> Result<(), Refusal>
    requires sized { Sized cage.now vertices triangles }
    requires working_room { WorkingRoom vertices triangles origins.old partners.old heads.old nexts.old slots.old }
    ensures refuses { Refuses cage.now (refused result) }
    ensures holds { IfOk result (λ u. Holds (cage_of cage.now) origins.new partners.new) }
{
    let v = vertices as usize;
    let f = triangles as usize;
    decoding::decode(cage, 8 + 12 * v, 3 * f, origins);
    if !decoding::corners_fit(origins, f, vertices) {
        return Err(Refusal::Corners);
    }
    if !decoding::coordinates_fit(cage, 3 * v) {
        return Err(Refusal::Coordinates);
    }
    if !pairing::pair(origins, f, v, heads, nexts, slots, partners) {
        return Err(Refusal::SideTwice);
    }
    if !pairing::fans::fit(origins, partners, triangles, vertices, heads, nexts) {
        return Err(Refusal::Fans);
    }
    Ok(())
}

// Judges such a cage. Where it is not refused, its corners and links are written.
// Kept: no heap: the room is arrays of fixed size, of which a cage takes the front.
pub fn load_by(
    corners: &mut [u32],
    links: &mut [u32],
    cage: &[u8],
    vertices: u32,
    triangles: u32,
    origins: &mut [u32],
    partners: &mut [u32],
    heads: &mut [u32],
    nexts: &mut [u32],
    slots: &mut [u32],
) -> Result<(), Refusal>
    requires sized { Sized cage.now vertices triangles × SideRoom triangles corners.old links.old }
    requires working_room { WorkingRoom vertices triangles origins.old partners.old heads.old nexts.old slots.old }
    ensures refuses { Refuses cage.now (refused result) }
    ensures sides_left { SidesLeft (cage_of cage.now) (refused result) corners.old links.old
        corners.new links.new }
{
    judge(
        cage, vertices, triangles, origins, partners, heads, nexts, slots,
    )?;
    let sides = 3 * (triangles as usize);
    tables::copies::copy(origins, sides, corners);
    tables::copies::copy(partners, sides, links);
    Ok(())
}
