// A number of each element added up over a part: a walk away from one of its elements, over closed links, that answers one number.
#![tactic(auto)]

ghost use Rattle.std.specs.Prelude.{◌≡◌, ◌+◌, ◌<◌, ◌^◌, ◌*◌};
ghost use Rattle.feeding.specs.Parts.{closed_in};
ghost use Rattle.feeding.specs.Loads.{element_load};
ghost use Rattle.feeding_part_sums.specs.Sums.{SumLent, sum_grid, end_sum};

use feeding_walks::Walk;

// `before` and what lies ahead of e, come to over the link via, adds up to. The last link that leads on waits until no other does, and is walked by the
// call that ends this one, which the compiler makes a jump.
#[cycle(element_sum_link_sum)]
pub fn element_sum(
    walk: &Walk,
    closed: &[u8; 96],
    number: &[u32; 64],
    e: usize,
    via: usize,
    depth: usize,
    before: u64,
) -> u64
    requires sum_lent { SumLent walk.now closed.now number.now }
    requires e_lt_elements { e < walk.now.elements }
    requires via_bound { before + element_load (sum_grid walk.now number.now) (closed_in closed.now) depth e via < 2 ^ 64 }
    ensures { result ≡ before + element_load (sum_grid walk.now number.now) (closed_in closed.now) depth e via }
{
    let own = number[e] as u64;
    let mut sum = before + own;
    if depth == 0 {
        return sum;
    }
    let d = depth - 1;
    let mut last: usize = 192;
    let mut j = walk.own.head[e] as usize;
    // along the chain of ends, so it counts nothing
    while j < 192 {
        let l = j / 2;
        if closed[l] == 1 {
            if l != via {
                sum = link_sum(walk, closed, number, last, d, sum);
                last = j;
            }
        }
        j = walk.own.next[j] as usize;
    }
    link_sum(walk, closed, number, last, d, sum)
}

// `before` and what lies ahead of the link of end j, away from that end, adds up to; `before` where j is no end.
#[cycle(element_sum_link_sum)]
fn link_sum(
    walk: &Walk,
    closed: &[u8; 96],
    number: &[u32; 64],
    j: usize,
    depth: usize,
    before: u64,
) -> u64
    requires sum_lent { SumLent walk.now closed.now number.now }
    requires j_bound { j < 192 → j < 2 * walk.now.links }
    requires j_bound_2 { before + end_sum walk.now closed.now number.now depth j < 2 ^ 64 }
    ensures { result ≡ before + end_sum walk.now closed.now number.now depth j }
{
    if j >= 192 {
        return before;
    }
    if depth == 0 {
        return before;
    }
    let f = walk.own.far[j] as usize;
    element_sum(walk, closed, number, f, j / 2, depth - 1, before)
}
