// How near the limit a configuration is: the loads of all live elements by one walk from each source, and the live element with the least margin.
#![tactic(auto)]

ghost use Rattle.std.specs.Prelude.{◌≡◌, ◌<◌, ◌≤◌, ◌^◌, ◌*◌, ◌/◌, length, replicate};
ghost use Rattle.network.specs.Accepted.{WellFormed};
ghost use Rattle.feeding.specs.Below.{bits};
ghost use Rattle.feeding.specs.Networks.{at, is_in, net_of};
ghost use Rattle.feeding.specs.Parts.{closed_in, sound?};
ghost use Rattle.feeding.specs.Loads.{element_load, link_load};
ghost use Rattle.feeding.specs.Safety.{Safe};
ghost use Rattle.feeding_ends.specs.Ends.{own_ends};
ghost use Rattle.feeding_loads.specs.Walks.{ListsLent, lists_grid, near_at, Carries};
ghost use Rattle.feeding_margins.specs.Margins.{Spotted, unfed, element_stored, link_stored, loads_stored, tightest_in, tightest, Fits};

use feeding_ends::OwnEnds;
use feeding_load_test::margin_of;
use feeding_loads::Lists;
use network::Network;

// The mark of an element that no walk has come to; no load is as high. `loads_stored`, which `loads_from` promises, has it in its list.
const UNFED: u64 = 18446744073709551615;

// A live element, and its margin.
#[derive(Clone, Copy)]
pub struct Spot {
    pub element: usize,
    pub margin: i64,
}

// The load at e, come to over the link via; the load at each element from e onward goes into `loads`. Capacities do not enter a walk, so that the own
// loads stand in their place in its grid.
#[cycle(element_loads_link_loads)]
pub fn element_loads(
    lists: &Lists,
    loads: &mut [u64; 64],
    e: usize,
    via: usize,
    depth: usize,
) -> u64
    requires lent { ListsLent lists.now lists.now.load.now }
    requires e_lt_elements { (e < lists.now.elements) × (lists.now.elements ≤ 64) }
    requires via_bound { element_load (lists_grid lists.now lists.now.load.now) (closed_in lists.now.closed.now) depth e via < 2 ^ 64 }
    ensures value { result ≡ element_load (lists_grid lists.now lists.now.load.now) (closed_in lists.now.closed.now) depth e via }
    ensures loads_after { loads.new ≡ element_stored (lists_grid lists.now lists.now.load.now) (closed_in lists.now.closed.now) depth e via loads.old }
{
    let mut sum = lists.load[e] as u64;
    if depth == 0 {
        loads[e] = sum;
        return sum;
    }
    let mut j = lists.head[e] as usize;
    // along the chain of ends, so it counts nothing
    while j < 192 {
        let l = j / 2;
        if lists.closed[l] == 1 {
            if l != via {
                sum = sum + link_loads(lists, loads, j, depth - 1);
            }
        }
        j = lists.next[j] as usize;
    }
    loads[e] = sum;
    sum
}

// What the link of end j carries away from that end: the load at its far element.
#[cycle(element_loads_link_loads)]
pub fn link_loads(lists: &Lists, loads: &mut [u64; 64], j: usize, depth: usize) -> u64
    requires lent { ListsLent lists.now lists.now.load.now }
    requires j_bound { (j < 2 * lists.now.links) × (lists.now.elements ≤ 64) }
    requires j_bound_2 { link_load (lists_grid lists.now lists.now.load.now) (closed_in lists.now.closed.now) depth (j / 2) (near_at lists.now.far.now j) < 2 ^ 64 }
    ensures value { result ≡ link_load (lists_grid lists.now lists.now.load.now) (closed_in lists.now.closed.now) depth (j / 2) (near_at lists.now.far.now j) }
    ensures loads_after { loads.new ≡ link_stored (lists_grid lists.now lists.now.load.now) (closed_in lists.now.closed.now) depth (j / 2) (near_at lists.now.far.now j) loads.old }
{
    if depth == 0 {
        return 0;
    }
    let f = lists.far[j] as usize;
    element_loads(lists, loads, f, j / 2, depth - 1)
}

// The load at each element that a walk from a marked one comes to, and the mark at the others.
pub fn loads_from(lists: &Lists, marked: &[u8]) -> [u64; 64]
    requires lent { ListsLent lists.now lists.now.load.now }
    requires elements_bound { (lists.now.elements ≤ 64) × (lists.now.elements ≤ length marked.now) }
    requires carries { Carries (lists_grid lists.now lists.now.load.now) (closed_in lists.now.closed.now) marked.now }
    ensures { result ≡ loads_stored (lists_grid lists.now lists.now.load.now) (closed_in lists.now.closed.now) (is_in marked.now) (replicate 64 unfed) }
{
    let mut loads = [UNFED; 64];
    for s in 0..lists.elements {
        if marked[s] == 1 {
            element_loads(lists, &mut loads, s, lists.links, 2 * lists.elements);
        }
    }
    loads
}

// The lowest of the elements with the least margin, of those that have a load.
pub fn least_margin(loads: &[u64], capacity: &[u32], elements: usize) -> Option<Spot>
    requires { Fits loads.now capacity.now elements }
    ensures { result ≡ tightest_in elements (at capacity.now) (at loads.now) }
{
    let mut spot: Option<Spot> = None;
    for e in 0..elements {
        let x = loads[e];
        if x != UNFED {
            spot = tighter(spot, e, margin_of(x, capacity[e] as u64));
        }
    }
    spot
}

// The live element with the least margin in a safe configuration, the lowest such, or that none is live; closed[l] is 1 for a closed link, `own` has the
// ends of all links, and `sound` the sound sources.
pub fn tightest_spot(net: Network, own: OwnEnds, sound: &[u8], closed: &[u8]) -> Option<Spot>
    requires well_formed { WellFormed net }
    requires own_value { own ≡ own_ends (at net.from) (at net.to) (is_in (replicate 96 1)) net.links }
    requires sound_value { sound.now ≡ bits 96 net.elements (sound? (net_of net).grid) }
    requires closed_len { length closed.now ≡ 96 }
    requires safe { Safe (net_of net).grid (closed_in closed.now) }
    ensures spotted { Spotted (net_of net).grid (closed_in closed.now) result }
    ensures value { result ≡ tightest (net_of net).grid (closed_in closed.now) }
{
    let lists = Lists {
        head: &own.head,
        next: &own.next,
        far: &own.far,
        closed,
        load: &net.load,
        elements: net.elements,
        links: net.links,
    };
    let loads = loads_from(&lists, sound);
    least_margin(&loads, &net.capacity, net.elements)
}

// The tighter of a spot and an element with this margin; the spot on a tie.
fn tighter(spot: Option<Spot>, e: usize, m: i64) -> Option<Spot>
    ensures { result ≡ Rattle.feeding_margins.specs.Margins.tighter spot e m }
{
    let other = Spot {
        element: e,
        margin: m,
    };
    match spot {
        None => {
            return Some(other);
        }
        Some(old) => {
            if m < old.margin {
                return Some(other);
            }
            return Some(old);
        }
    }
}
