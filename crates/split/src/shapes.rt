// The triangles that a face split, a rim split and a flip leave, by those that were there.
ghost use Rattle.std.specs.Prelude.{◌≡◌, ◌≤◌, ◌<◌};
ghost use Rattle.split.specs.Made.{children_of, rim_children_of, flipped_of};

use tables::Triangle;

// The triangles that take the place of x, of slot t: p is the new vertex, f the first free slot and e the next.
//
//            C                         C
//           / \                       /|\
//          /   \                     / | \
//         /  t  \                   / e|f \
//        /       \                 /  .p.  \
//       /         \               / .  t  . \
//      A-----------B             A-----------B
pub fn children(x: Triangle, t: u32, f: u32, p: u32) -> [Triangle; 3]
    requires { (t < 65536) × (f < 65536) × (x.generation < 255) }
    ensures { result ≡ children_of x t f p }
{
    let g = x.generation + 1;
    let e = f + 1;
    [
        Triangle {
            corners: [x.corners[0], x.corners[1], p],
            links: [x.links[0], 3 * f + 2, 3 * e + 1],
            generation: g,
        },
        Triangle {
            corners: [x.corners[1], x.corners[2], p],
            links: [x.links[1], 3 * e + 2, 3 * t + 1],
            generation: g,
        },
        Triangle {
            corners: [x.corners[2], x.corners[0], p],
            links: [x.links[2], 3 * t + 2, 3 * f + 1],
            generation: g,
        },
    ]
}

// The triangles that take the place of x, of slot t with its base on the boundary: v and v + 1 are the new vertices, f
// the first free slot and e the next.
//
//               P                            P
//             .   .                       . / \ .
//           .       .                   .  /   \  .
//         .     t     .               .   /     \   .
//       .               .           .  t /   f   \ e  .
//      A-----------------B         A----v-------v+1----B
pub fn rim_children(x: Triangle, t: u32, f: u32, v: u32) -> [Triangle; 3]
    requires { (t < 65536) × (f < 65536) × (v < 65536) × (x.generation ≤ 252) }
    ensures { result ≡ rim_children_of x t f v }
{
    let g = x.generation + 2;
    let middle = x.generation + 3;
    let e = f + 1;
    [
        Triangle {
            corners: [x.corners[2], x.corners[0], v],
            links: [x.links[2], tables::BOUNDARY, 3 * f + 2],
            generation: g,
        },
        Triangle {
            corners: [v, v + 1, x.corners[2]],
            links: [tables::BOUNDARY, 3 * e + 1, 3 * t + 2],
            generation: middle,
        },
        Triangle {
            corners: [x.corners[1], x.corners[2], v + 1],
            links: [x.links[1], 3 * f + 1, tables::BOUNDARY],
            generation: g,
        },
    ]
}

// The triangles that take the place of x, of slot s, and y, of slot u, whose bases meet.
//
//            P                         P
//           / \                       /|\
//          / s \                     / | \
//         A-----B                   A s|u B
//          \ u /                     \ | /
//           \ /                       \|/
//            Q                         Q
pub fn flipped(x: Triangle, y: Triangle, s: u32, u: u32) -> [Triangle; 2]
    requires { (s < 65536) × (u < 65536) × (x.generation < 255) }
    ensures { result ≡ flipped_of x y s u }
{
    let g = x.generation + 1;
    [
        Triangle {
            corners: [x.corners[0], y.corners[2], x.corners[2]],
            links: [y.links[1], 3 * u + 1, x.links[2]],
            generation: g,
        },
        Triangle {
            corners: [y.corners[0], x.corners[2], y.corners[2]],
            links: [x.links[1], 3 * s + 1, y.links[2]],
            generation: g,
        },
    ]
}
