// Working room for a load, by the size of its cage: what is cleared grows with it.
#![tactic(auto)]

ghost use Rattle.std.specs.Prelude.{true, ◌≡◌, ◌*◌, ◌≤◌};
ghost use Rattle.rules.specs.Cage.{cage_of};
ghost use Rattle.tables.specs.Refusals.{refused};
ghost use Rattle.judging.specs.Answers.{Refuses, SideRoom, SidesLeft};
ghost use Rattle.judging.specs.Loading.{Sized};
ghost use Rattle.rooms.specs.Within.{Within};

use judging::load_by;
use tables::refusals::Refusal;

// Judges a cage of up to V vertices and S sides. Where it is not refused, its corners and links are written.
fn load_within<const V: usize, const S: usize>(
    corners: &mut [u32],
    links: &mut [u32],
    cage: &[u8],
    vertices: u32,
    triangles: u32,
) -> Result<(), Refusal>
    requires sized { Sized cage.now vertices triangles × SideRoom triangles corners.old links.old }
    requires vertices_within { vertices ≤ V }
    requires sides_within { 3 * triangles ≤ S }
    requires few { (V ≤ 32768) × (S ≤ 196608) }
    ensures refuses { Refuses cage.now (refused result) }
    ensures sides_left { SidesLeft (cage_of cage.now) (refused result) corners.old links.old
        corners.new links.new }
{
    let mut origins = [0u32; S];
    let mut partners = [0u32; S];
    let mut heads = [0u32; V];
    let mut nexts = [0u32; S];
    let mut slots = [0u32; V];
    load_by(
        corners,
        links,
        cage,
        vertices,
        triangles,
        &mut origins,
        &mut partners,
        &mut heads,
        &mut nexts,
        &mut slots,
    )
}

// Whether there are at most so many vertices and triangles.
fn within(size: u32, vertices: u32, triangles: u32) -> bool
    ensures { result ≡ true → Within size vertices triangles }
{
    vertices <= size && triangles <= size
}

// The same for all with more than 2048 vertices or triangles. The great rooms keep a frame of their own, whose pages a
// small cage does not touch.
// Kept: the room is chosen by the size, and no const argument can be computed from it.
#[inline(never)]
fn load_beyond_2048(
    corners: &mut [u32],
    links: &mut [u32],
    cage: &[u8],
    vertices: u32,
    triangles: u32,
) -> Result<(), Refusal>
    requires { Sized cage.now vertices triangles × SideRoom triangles corners.old links.old }
    ensures refuses { Refuses cage.now (refused result) }
    ensures sides_left { SidesLeft (cage_of cage.now) (refused result) corners.old links.old
        corners.new links.new }
{
    if within(16384, vertices, triangles) {
        return load_within::<16384, 49152>(corners, links, cage, vertices, triangles);
    }
    load_within::<32768, 196608>(corners, links, cage, vertices, triangles)
}

// The same for all. A room is at most eight times the one below, so that clearing it takes little of a load's time.
// Kept: the room is chosen by the size, and no const argument can be computed from it.
pub fn load_in_room(
    corners: &mut [u32],
    links: &mut [u32],
    cage: &[u8],
    vertices: u32,
    triangles: u32,
) -> Result<(), Refusal>
    requires { Sized cage.now vertices triangles × SideRoom triangles corners.old links.old }
    ensures refuses { Refuses cage.now (refused result) }
    ensures sides_left { SidesLeft (cage_of cage.now) (refused result) corners.old links.old
        corners.new links.new }
{
    if within(32, vertices, triangles) {
        return load_within::<32, 96>(corners, links, cage, vertices, triangles);
    }
    if within(256, vertices, triangles) {
        return load_within::<256, 768>(corners, links, cage, vertices, triangles);
    }
    if within(2048, vertices, triangles) {
        return load_within::<2048, 6144>(corners, links, cage, vertices, triangles);
    }
    load_beyond_2048(corners, links, cage, vertices, triangles)
}
