// Sets of elements or links as arrays, 1 for a member and 0 for the others, as `bits` and `is_in` in the theorems' definitions have them
// (docs/DECISIONS.md, 30); each function makes one in one pass.
#![tactic(auto)]

ghost use Rattle.std.specs.Prelude.{◌≡◌, ◌<◌, length};
ghost use Rattle.feeding.specs.Below.{bits};
ghost use Rattle.feeding_sets.specs.Sets.{Reach, PartsReach, EndsReach, one_of, but_not, part_has, at_either_end, members};

use feeding_parts::last_of_part;

// Those whose value is the one number or the other.
pub fn members_of(values: &[u16], one: u16, other: u16, count: usize) -> [u8; 96]
    requires { Reach values.now count }
    ensures { result ≡ bits 96 count (one_of values.now one other) }
{
    let mut out: [u8; 96] = [0; 96];
    for x in 0..count {
        let value = values[x];
        if value == one || value == other {
            out[x] = 1;
        }
    }
    out
}

// Those of the one set that are not in the other.
pub fn except(yes: &[u8], no: &[u8], count: usize) -> [u8; 96]
    requires reach { Reach yes.now count }
    requires reach_2 { Reach no.now count }
    ensures { result ≡ bits 96 count (but_not yes.now no.now) }
{
    let mut out: [u8; 96] = [0; 96];
    for x in 0..count {
        if yes[x] == 1 && no[x] != 1 {
            out[x] = 1;
        }
    }
    out
}

// The elements whose part has a member of the set.
pub fn spread(label: &[u8], has: &[u8], elements: usize) -> [u8; 96]
    requires { PartsReach label.now has.now elements }
    ensures { result ≡ bits 96 elements (part_has label.now has.now elements) }
{
    let last = last_of_part(label, has, elements);
    let mut out: [u8; 96] = [0; 96];
    for x in 0..elements {
        let k = label[x] as usize;
        if last[k] < 64 {
            out[x] = 1;
        }
    }
    out
}

// The links with an end in the set.
pub fn at_either_end(from: &[u16], to: &[u16], has: &[u8], links: usize) -> [u8; 96]
    requires { EndsReach from.now to.now has.now links }
    ensures { result ≡ bits 96 links (at_either_end from.now to.now has.now) }
{
    let mut out: [u8; 96] = [0; 96];
    for l in 0..links {
        let a = from[l] as usize;
        let b = to[l] as usize;
        if has[a] == 1 || has[b] == 1 {
            out[l] = 1;
        }
    }
    out
}

// How many members the set has.
pub fn count_of(has: &[u8], count: usize) -> usize
    requires { Reach has.now count }
    ensures { result ≡ length (members has.now count) }
{
    has[..count].iter().filter(|x| **x == 1).count()
}
