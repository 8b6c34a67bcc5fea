// Whether every element that a source feeds stays within its capacity: a walk away from it that stops at the first element that does not.
#![tactic(auto)]

ghost use Rattle.std.specs.Prelude.{◌≡◌, ◌+◌, ◌<◌, ◌≤◌, ◌*◌};
ghost use Rattle.feeding.specs.Parts.{closed_in};
ghost use Rattle.feeding.specs.Loads.{within_from?};
ghost use Rattle.feeding_loads.specs.Walks.{near_at, WalkLent, grid_of_walk};
ghost use Rattle.feeding_capacity.specs.Within.{overloaded, within_at, end_within, past};

use feeding_load_test::margin_of;
use feeding_walks::Walk;

// The answer of a walk that meets an element above its capacity, or more load than there is room for; no load is as high. `past` in specs/ has this number.
const OVERLOADED: u64 = 18446744073709551615;

// `before` and the load at e, come to over the link via, or OVERLOADED where that load is above `room` or an element from e onward is above its capacity.
// No sum is above the room, so a walk stops at the first link that carries too much. The last link that leads on waits until no other does, and is walked
// by the call that ends this one, which the compiler makes a jump.
#[cycle(element_within_link_within)]
fn element_within(
    walk: &Walk,
    closed: &[u8; 96],
    e: usize,
    via: usize,
    depth: usize,
    room: u64,
    before: u64,
) -> u64
    requires walk_lent { WalkLent walk.now closed.now }
    requires elements_bound { (walk.now.elements ≤ 64) × (e < walk.now.elements) }
    requires room_bound { before + room < overloaded }
    ensures { result ≡ past before (within_at (grid_of_walk walk.now) (closed_in closed.now) depth e via room) }
{
    let most = room.min(walk.capacity[e] as u64);
    let mut sum = walk.load[e] as u64;
    if margin_of(sum, most) < 0 {
        return OVERLOADED;
    }
    if depth == 0 {
        return before + sum;
    }
    let d = depth - 1;
    let mut last: usize = 192;
    let mut j = walk.own.head[e] as usize;
    // along the chain of ends, so it counts nothing
    while j < 192 {
        let l = j / 2;
        if closed[l] == 1 {
            if l != via {
                let left = most - sum;
                let c = link_within(walk, closed, last, d, left, 0);
                if c == OVERLOADED {
                    return c;
                }
                sum = sum + c;
                last = j;
            }
        }
        j = walk.own.next[j] as usize;
    }
    let left = most - sum;
    let all = before + sum;
    link_within(walk, closed, last, d, left, all)
}

// `before` and what the link of end j carries away from that end, the load at its far element, or OVERLOADED; `before` where j is no end.
#[cycle(element_within_link_within)]
fn link_within(
    walk: &Walk,
    closed: &[u8; 96],
    j: usize,
    depth: usize,
    room: u64,
    before: u64,
) -> u64
    requires walk_lent { WalkLent walk.now closed.now }
    requires elements_bound { (walk.now.elements ≤ 64) × (j < 192 → j < 2 * walk.now.links) }
    requires room_bound { before + room < overloaded }
    ensures { result ≡ past before (end_within (grid_of_walk walk.now) (closed_in closed.now) depth j (near_at walk.now.own.far j) room) }
{
    if j >= 192 {
        return before;
    }
    if depth == 0 {
        return before;
    }
    let f = walk.own.far[j] as usize;
    element_within(walk, closed, f, j / 2, depth - 1, room, before)
}

// Whether every element that is fed from the sound source s stays within its capacity: one walk.
pub fn within_from(walk: &Walk, closed: &[u8; 96], s: usize) -> bool
    requires walk_lent { WalkLent walk.now closed.now }
    requires elements_bound { (walk.now.elements ≤ 64) × (s < walk.now.elements) }
    ensures { result ≡ within_from? (grid_of_walk walk.now) (closed_in closed.now) s }
{
    let most = walk.capacity[s] as u64;
    let c = element_within(walk, closed, s, walk.links, 2 * walk.elements, most, 0);
    c != OVERLOADED
}
