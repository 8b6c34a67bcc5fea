// The parts of a configuration: a label for each element, which is the lowest element of its part, and where loops close.
#![tactic(auto)]

ghost use Rattle.std.specs.Prelude.{◌≡◌, ◌<◌, ◌≤◌, length};
ghost use Rattle.feeding_parts.specs.Labelling.{Falls, AllBelow, EndsBelow, root_of, roots_of, parts_of, last_of_part};

// label[e]: the lowest element of the part of e; looped[x] is 1 where a closed link with first end x closes a loop.
#[derive(Clone, Copy)]
pub struct Parts {
    pub label: [u8; 64],
    pub looped: [u8; 64],
}

const OWN: [u8; 64] = [
    0, 1, 2, 3, 4, 5, 6, 7, 8, 9, 10, 11, 12, 13, 14, 15, 16, 17, 18, 19, 20, 21, 22, 23, 24, 25,
    26, 27, 28, 29, 30, 31, 32, 33, 34, 35, 36, 37, 38, 39, 40, 41, 42, 43, 44, 45, 46, 47, 48, 49,
    50, 51, 52, 53, 54, 55, 56, 57, 58, 59, 60, 61, 62, 63,
];

// The root of x, where each element's entry is a lower element of its part, or itself.
pub fn root(parent: &[u8], x: usize) -> usize
    requires falls { Falls parent.now }
    requires x_in_bounds { x < length parent.now }
    ensures { result ≡ root_of parent.now x }
{
    let mut at = x;
    let mut up = parent[at] as usize;
    // up the parents, so it counts nothing
    while up != at {
        at = up;
        up = parent[at] as usize;
    }
    at
}

// Each element with its root.
fn flat(parent: [u8; 64]) -> [u8; 64]
    requires { Falls parent }
    ensures { result ≡ roots_of parent }
{
    let mut label = parent;
    for x in 0..64 {
        let up = label[x] as usize;
        label[x] = label[up];
    }
    label
}

// The parts that the closed ones of the first links make; closed[l] is 1 for a closed link.
pub fn parts_of(from: &[u16], to: &[u16], closed: &[u8], links: usize) -> Parts
    requires { EndsBelow 64 from.now to.now closed.now links }
    ensures { result ≡ parts_of from.now to.now closed.now links }
{
    let mut parent = OWN;
    let mut looped: [u8; 64] = [0; 64];
    for l in 0..links {
        if closed[l] == 1 {
            let a = from[l] as usize;
            let b = to[l] as usize;
            let x = root(&parent, a);
            let y = root(&parent, b);
            if x == y {
                looped[a] = 1;
            } else if x < y {
                parent[y] = x as u8;
                parent[a] = x as u8;
                parent[b] = x as u8;
            } else {
                parent[x] = y as u8;
                parent[a] = y as u8;
                parent[b] = y as u8;
            }
        }
    }
    let label = flat(parent);
    Parts { label, looped }
}

// For each label the highest of the first elements with it for which has is 1, or 64, as `last_of_part` in specs/ has it.
pub fn last_of_part(label: &[u8], has: &[u8], elements: usize) -> [u8; 64]
    requires elements_bound { (elements ≤ 64) × (elements ≤ length label.now) × (elements ≤ length has.now) }
    requires all_below { AllBelow 64 label.now elements }
    ensures { result ≡ last_of_part label.now has.now elements }
{
    let mut last: [u8; 64] = [64; 64];
    for x in 0..elements {
        if has[x] == 1 {
            let k = label[x] as usize;
            last[k] = x as u8;
        }
    }
    last
}
