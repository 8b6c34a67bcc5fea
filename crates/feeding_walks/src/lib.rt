// What walks go over; made once per network, and lent whole, so that a walk passes one pointer on.
#![tactic(auto)]

ghost use Rattle.std.specs.Prelude.{◌≡◌};
ghost use Rattle.feeding_walks.specs.Walking.{walk_of};

use feeding_ends::OwnEnds;
use network::Network;

// The chained ends of the links, the loads and capacities, and how many elements and links there are.
#[derive(Clone, Copy)]
pub struct Walk {
    pub own: OwnEnds,
    pub load: [u32; 64],
    pub capacity: [u32; 64],
    pub elements: usize,
    pub links: usize,
}

// The walk over a network with these ends.
pub fn walk_of(net: &Network, own: OwnEnds) -> Walk
    ensures { result ≡ walk_of net.now own }
{
    Walk {
        own,
        load: net.load,
        capacity: net.capacity,
        elements: net.elements,
        links: net.links,
    }
}
