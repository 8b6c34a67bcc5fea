// Which elements closed links join to a set, and from it what a network's faults spoil and what can be restored: sets of elements, 1 for a member.
#![tactic(auto)]

ghost use Rattle.std.specs.Prelude.{◌≡◌};
ghost use Rattle.network.specs.Accepted.{WellFormed};
ghost use Rattle.feeding.specs.Below.{bits};
ghost use Rattle.feeding.specs.Networks.{net_of};
ghost use Rattle.feeding.specs.Restoration.{restorable?};
ghost use Rattle.feeding_restoration.specs.Joining.{JoinsReach, joined_to};

use feeding_parts::parts_of;
use feeding_sets::{at_either_end, except, members_of, spread};
use network::Network;

// The elements that closed links join to a member of the set; closed[l] is 1 for a closed link.
pub fn joined_to<'a>(
    from: &'a [u16],
    to: &'a [u16],
    closed: &'a [u8],
    has: &'a [u8],
    elements: usize,
    links: usize,
) -> [u8; 96]
    requires { JoinsReach from.now to.now closed.now has.now elements links }
    ensures { result ≡ bits 96 elements (joined_to from.now to.now closed.now has.now elements links) }
{
    let parts = parts_of(from, to, closed, links);
    spread(&parts.label, has, elements)
}

// `fixed` has the fixed links, `faulty` the faulty elements.
pub fn restorable_elements<'a>(net: Network, fixed: &'a [u8; 96], faulty: &'a [u8; 96]) -> [u8; 96]
    requires well_formed { WellFormed net }
    requires fixed_value { fixed.now ≡ bits 96 net.links (net_of net).fixed }
    requires faulty_value { faulty.now ≡ bits 96 net.elements (net_of net).grid.faulty }
    ensures { result ≡ bits 96 net.elements (restorable? (net_of net)) }
{
    let spoiled = joined_to(&net.from, &net.to, fixed, faulty, net.elements, net.links);
    let touched = at_either_end(&net.from, &net.to, &spoiled, net.links);
    let all: [u8; 96] = [1; 96];
    let clean = except(&all, &touched, net.links);
    let source = members_of(&net.flags, 1, 3, net.elements);
    let unspoiled = except(&source, &spoiled, net.elements);
    let reached = joined_to(
        &net.from,
        &net.to,
        &clean,
        &unspoiled,
        net.elements,
        net.links,
    );
    except(&reached, &spoiled, net.elements)
}
