// Each element's own links, as chained ends; made once per network.
#![tactic(auto)]

ghost use Rattle.std.specs.Prelude.{◌≡◌};
ghost use Rattle.feeding.specs.Networks.{at, is_in};
ghost use Rattle.feeding_ends.specs.Ends.{TwoEnds, own_ends};

// The ends of the links: end 2l is the first end of link l and end 2l + 1 its second. head[e] is the lowest chained end at element e,
// next[j] the lowest chained end above j at the same element, 192 (as `own_ends` in specs/ has it) where there is none, and far[j] the element at the other end of j's link.
#[derive(Clone, Copy)]
pub struct OwnEnds {
    pub head: [u8; 64],
    pub next: [u8; 192],
    pub far: [u8; 192],
}

// The ends of the links in the set are chained.
pub fn own_ends(from: &[u16], to: &[u16], has: &[u8], links: usize) -> OwnEnds
    requires { TwoEnds from.now to.now has.now links }
    ensures { result ≡ own_ends (at from.now) (at to.now) (is_in has.now) links }
{
    let mut head: [u8; 64] = [192; 64];
    let mut next: [u8; 192] = [192; 192];
    let mut far: [u8; 192] = [0; 192];
    for l in (0..links).rev() {
        let a = from[l] as usize;
        let b = to[l] as usize;
        next[2 * l + 1] = head[b];
        far[2 * l + 1] = a as u8;
        next[2 * l] = head[a];
        far[2 * l] = b as u8;
        if has[l] == 1 {
            head[b] = (2 * l + 1) as u8;
            head[a] = (2 * l) as u8;
        }
    }
    OwnEnds { head, next, far }
}
