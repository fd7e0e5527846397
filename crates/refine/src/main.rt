// The program: loads cage.bin, refines the triangles that requests.bin names, and prints a line for each call. Where a
// read fails the file ends there, and a line whose write fails may be cut or missing; the program goes on, and ends with
// the first such error.
#![tactic(auto)]

ghost use Rattle.std.specs.Prelude.{ℕ, ◌%◌, ◌≤◌, List, ◌≡◌, Some, length, take};
ghost use Rattle.rules.specs.Calls.{load_call, refine_call};
ghost use Rattle.tables.specs.Lent.{mesh_with};
ghost use Rattle.refine.specs.Requests.{fresh, line_of, tables_of, store_mesh, store_outcome, after_bytes, AllAnswered};

use std::fs::File;
use std::io::Read;
use std::rt::Files;
use std::{fmt, io};
use tables::{Counts, Tables, Worked};

// The counts of a store with no mesh in it yet.
const FRESH: Counts = Counts {
    vertices: 0,
    triangles: 0,
    rule: 1,
};

// The mesh that the program keeps, in 1,024 vertex and 2,048 triangle slots.
// Kept: no heap: the program's tables are arrays of fixed size.
#[derive(Drop)]
struct Store {
    positions: [i32; 3072],
    corners: [u32; 6144],
    links: [u32; 6144],
    generations: [u8; 2048],
    locks: [u8; 2048],
    counts: Counts,
}

impl Store {
    // One with no mesh in it yet.
    fn fresh() -> Store
        ensures { result.counts ≡ fresh }
    {
        Store {
            positions: [0; 3072],
            corners: [0; 6144],
            links: [0; 6144],
            generations: [0; 2048],
            locks: [0; 2048],
            counts: FRESH,
        }
    }

    // Loads a cage by rule 1, as into a fresh store.
    fn load(&mut self, cage: &[u8]) -> Worked
        ensures counts { self.new.counts ≡ result.counts }
        ensures outcome { store_outcome result self.new ≡ load_call 1 cage.now (mesh_with fresh (tables_of self.old)) }
    {
        let mut tables = Tables {
            positions: &mut self.positions,
            corners: &mut self.corners,
            links: &mut self.links,
            generations: &mut self.generations,
            locks: &mut self.locks,
        };
        let done = mesh::load(&mut tables, FRESH, 1, cage);
        self.counts = done.counts;
        done
    }

    // Refines triangle t.
    fn refine(&mut self, t: u32) -> Worked
        ensures counts { self.new.counts ≡ result.counts }
        ensures outcome { store_outcome result self.new ≡ refine_call t (store_mesh self.old) }
    {
        let mut tables = Tables {
            positions: &mut self.positions,
            corners: &mut self.corners,
            links: &mut self.links,
            generations: &mut self.generations,
            locks: &mut self.locks,
        };
        let done = mesh::refine(&mut tables, self.counts, t);
        self.counts = done.counts;
        done
    }
}

// The line of a call: refusal, splits, flips, vertices and triangles.
#[derive(Clone, Copy)]
struct Line(Worked);

impl fmt::Display for Line {
    ghost output = { λ line. Some (line_of line.0) };

    fn fmt<W: fmt::Write>(&self, f: &mut fmt::Formatter<W>) -> fmt::Result {
        let done = self.0;
        write!(
            f,
            "{} {} {} {} {}",
            done.refusal, done.splits, done.flips, done.counts.vertices, done.counts.triangles
        )
    }
}

// Reads until the buffer is full, the file ends or a read fails, and answers how many bytes it then holds.
fn read_full(file: &mut impl Read, buffer: &mut [u8]) -> (usize, io::Result<()>)
    ensures { result.0 ≤ length buffer.new }
{
    let mut done = 0;
    // Kept: no plainer: a read advances by what it brings, and `read_exact` does not tell what came before the end.
    while done < buffer.len() {
        match file.read(&mut buffer[done..]) {
            Ok(0) => break,
            Ok(n) => done += n,
            Err(e) => return (done, Err(e)),
        }
    }
    (done, Ok(()))
}

// Loads the cage in a file by rule 1, as into a fresh store; one that is missing is empty. The buffer has a byte more
// than the largest cage of this store, so that a longer file is longer here too.
fn load(store: &mut Store, rt: &impl Files, path: &str) -> (Worked, io::Result<()>)
    ensures counts { store.new.counts ≡ result.0.counts }
    ensures outcome { (bytes : List ℕ)
        × (store_outcome result.0 store.new ≡ load_call 1 bytes (mesh_with fresh (tables_of store.old))) }
{
    let mut cage = [0; 36873];
    let Ok(mut file) = File::open(rt, path) else {
        return (store.load(b""), Ok(()));
    };
    let (n, read) = read_full(&mut file, &mut cage);
    (store.load(&cage[..n]), read)
}

// Answers the requests in these bytes, four to each, and drops what is left over.
fn answer(store: &mut Store, rt: &impl Print, requests: &[u8]) -> io::Result<()>
    ensures { store_mesh store.new ≡ after_bytes requests.now (store_mesh store.old) }
{
    let mut printed = Ok(());
    for request in requests.chunks_exact(4) {
        let done = store.refine(points::number_at(request, 0));
        printed = printed.and(rt.println(Line(done)));
    }
    printed
}

// Reads into the buffer, and answers the requests that it then holds.
fn answer_some(
    store: &mut Store,
    rt: &impl Print,
    file: &mut impl Read,
    requests: &mut [u8],
) -> (usize, io::Result<()>)
    ensures read_in_bounds { result.0 ≤ length requests.new }
    ensures answered { store_mesh store.new
        ≡ after_bytes (take result.0 requests.new) (store_mesh store.old) }
{
    let (n, read) = read_full(file, requests);
    let printed = answer(store, rt, &requests[..n]);
    (n, read.and(printed))
}

// Answers all requests, read by read, until a read does not fill the buffer. Its length is a multiple of 4, so that no
// request comes in two reads. A proved loop has to end, and nothing says that a file does: its turns are as many as no
// run uses up.
fn answer_all(
    store: &mut Store,
    rt: &impl Print,
    file: &mut impl Read,
    requests: &mut [u8],
) -> (usize, io::Result<()>)
    requires { length requests.old % 4 ≡ 0 }
    ensures { AllAnswered (length requests.new) (take result.0 requests.new)
        (store_mesh store.old) (store_mesh store.new) }
{
    let (mut last, mut outcome) = answer_some(store, rt, file, requests);
    for _turn in 0..u64::MAX {
        if last < requests.len() {
            break;
        }
        let (read, answered) = answer_some(store, rt, file, requests);
        last = read;
        outcome = outcome.and(answered);
    }
    (last, outcome)
}

fn main(rt: HostRuntime) -> io::Result<()> {
    let mut store = Store::fresh();
    let (loaded, read) = load(&mut store, &rt, "cage.bin");
    let outcome = read.and(rt.println(Line(loaded)));
    let Ok(mut file) = File::open(&rt, "requests.bin") else {
        return outcome;
    };
    let mut requests = [0; 65536];
    let (_, answered) = answer_all(&mut store, &rt, &mut file, &mut requests);
    outcome.and(answered)
}
