// A cage whose sides out of each vertex are threaded.
ghost use Rattle.std.specs.Prelude.{◌*◌};
ghost use Rattle.decoding.specs.Decoded.{decoded, Readable};
ghost use Rattle.pairing.specs.Pairing.{Threads};

// The corners of a cage, and threads of the sides out of each vertex, from the last to the first. All numbers in them
// are one more than a side, and 0 ends a thread.
#[derive(Clone, Copy)]
pub struct Threaded<'a> {
    pub corners: &'a [u32],
    pub triangles: usize,
    pub vertices: usize,
    pub heads: &'a [u32],
    pub nexts: &'a [u32],
    ghost readable: { Readable vertices triangles corners.now },
    ghost threads: { Threads (decoded vertices triangles corners.now) (3 * triangles) heads.now nexts.now },
}
