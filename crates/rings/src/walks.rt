// The test of fans by a walk round each vertex.
ghost use Rattle.std.specs.Prelude.{List, ℕ, ◌*◌};
ghost use Rattle.rings.specs.Walks.{AllBegun, StartsInUse, CornersInUse, TellsFans};

// Whether each vertex has one fan, by the walks from the starts: there is one for each, and the walks meet as many
// sides as there are.
pub fn fans(links: &[u32], triangles: u32, vertices: u32, starts: &[u32]) -> bool
    requires { StartsInUse vertices triangles links.now starts.now }
    ensures { (c : List ℕ) → CornersInUse vertices (3 * triangles) c
        → AllBegun vertices c links.now (3 * triangles) (3 * triangles) starts.now
        → TellsFans vertices triangles c links.now result }
{
    let mut met: usize = 0;
    for s in &starts[..vertices as usize] {
        let s = *s as usize;
        if s == 0 {
            return false;
        }
        met += crate::walk_from(links, triangles, s - 1).sides;
    }
    met == 3 * (triangles as usize)
}
