// The load at an element and what a link carries, each by its own links; and the lowest element that is loaded above its capacity.
#![tactic(auto)]

ghost use Rattle.std.specs.Prelude.{◌≡◌, ◌<◌, ◌≤◌, ◌^◌, ◌*◌, ◌/◌, length};
ghost use Rattle.feeding.specs.Below.{some_below};
ghost use Rattle.feeding.specs.Parts.{closed_in};
ghost use Rattle.feeding.specs.Loads.{element_load, link_load};
ghost use Rattle.feeding_loads.specs.Walks.{ListsLent, lists_grid, near_at, lower_over, element_carried, link_carried, Carries, over_place};

use feeding_load_test::margin_of;

// The lists that a walk goes over: the chained ends of the links, which links are closed, and the own loads; and how many elements and links there are.
// Slices, because the walks over them promise what they do for lists of any length.
#[derive(Clone, Copy)]
pub struct Lists<'a> {
    pub head: &'a [u8],
    pub next: &'a [u8],
    pub far: &'a [u8],
    pub closed: &'a [u8],
    pub load: &'a [u32],
    pub elements: usize,
    pub links: usize,
}

// A load, and the lowest element above its capacity that was met on the way, or the number of elements: lower than none is any element, so that the lower
// of two answers is their minimum, and an Option there is no plainer.
#[derive(Clone, Copy)]
pub struct Carried {
    pub load: u64,
    pub over: usize,
}

// The lower of over and e, where the margin of e is negative, else over.
fn lower_over(e: usize, load: u64, capacity: u32, over: usize) -> usize
    requires { load < 2 ^ 63 }
    ensures { result ≡ lower_over e load capacity over }
{
    if margin_of(load, capacity as u64) >= 0 {
        return over;
    }
    over.min(e)
}

// The load at e, come to over the link via.
#[cycle(element_load_link_load)]
pub fn element_load(lists: &Lists, capacity: &[u32], e: usize, via: usize, depth: usize) -> Carried
    requires lent { ListsLent lists.now capacity.now }
    requires e_lt_elements { e < lists.now.elements }
    requires via_bound { element_load (lists_grid lists.now capacity.now) (closed_in lists.now.closed.now) depth e via < 2 ^ 63 }
    ensures { result ≡ element_carried (lists_grid lists.now capacity.now) (closed_in lists.now.closed.now) depth e via }
{
    let mut sum = lists.load[e] as u64;
    let mut over = lists.elements;
    if depth == 0 {
        over = lower_over(e, sum, capacity[e], over);
        return Carried { load: sum, over };
    }
    let mut j = lists.head[e] as usize;
    // along the chain of ends, so it counts nothing
    while j < 192 {
        let l = j / 2;
        if lists.closed[l] == 1 {
            if l != via {
                let c = link_load(lists, capacity, j, depth - 1);
                sum = sum + c.load;
                over = over.min(c.over);
            }
        }
        j = lists.next[j] as usize;
    }
    over = lower_over(e, sum, capacity[e], over);
    Carried { load: sum, over }
}

// What the link of end j carries away from that end: the load at its far element.
#[cycle(element_load_link_load)]
pub fn link_load(lists: &Lists, capacity: &[u32], j: usize, depth: usize) -> Carried
    requires lent { ListsLent lists.now capacity.now }
    requires j_bound { j < 2 * lists.now.links }
    requires j_bound_2 { link_load (lists_grid lists.now capacity.now) (closed_in lists.now.closed.now) depth (j / 2) (near_at lists.now.far.now j) < 2 ^ 63 }
    ensures { result ≡ link_carried (lists_grid lists.now capacity.now) (closed_in lists.now.closed.now) depth (j / 2) (near_at lists.now.far.now j) }
{
    if depth == 0 {
        return Carried {
            load: 0,
            over: lists.elements,
        };
    }
    let f = lists.far[j] as usize;
    element_load(lists, capacity, f, j / 2, depth - 1)
}

// The lowest element above its capacity over the walks from all sound sources.
pub fn over_place(lists: &Lists, capacity: &[u32], sound: &[u8]) -> Option<usize>
    requires lent { ListsLent lists.now capacity.now }
    requires elements_bound { (lists.now.elements ≤ 64) × (lists.now.elements ≤ length sound.now) }
    requires carries { Carries (lists_grid lists.now capacity.now) (closed_in lists.now.closed.now) sound.now }
    ensures { result ≡ some_below lists.now.elements (over_place (lists_grid lists.now capacity.now) (closed_in lists.now.closed.now) sound.now) }
{
    let mut place = lists.elements;
    for s in 0..lists.elements {
        if sound[s] == 1 {
            let c = element_load(lists, capacity, s, lists.links, 2 * lists.elements);
            place = place.min(c.over);
        }
    }
    if place < lists.elements {
        return Some(place);
    }
    None
}
