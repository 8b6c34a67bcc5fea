// What is known of a network at the start, in one value that is made once: its states, what is live and restorable, and which switches may be operated.
#![tactic(auto)]

ghost use Rattle.std.specs.Prelude.{◌≡◌};
ghost use Rattle.network.specs.Accepted.{WellFormed};
ghost use Rattle.feeding.specs.Below.{bits};
ghost use Rattle.feeding.specs.Networks.{net_of};
ghost use Rattle.feeding.specs.Parts.{sound?};
ghost use Rattle.feeding_parts.specs.Labelling.{parts_of};
ghost use Rattle.feeding_start.specs.Starting.{all_ends, start_of};

use feeding_ends::OwnEnds;
use feeding_restoration::restorable_elements;
use feeding_sets::{at_either_end, except, members_of, spread};
use network::Network;

// Sets of elements or links, 1 for a member: the links closed at the start; the sound sources, the faulty elements, those live at the start and the
// restorable ones; the operable switches. `own` has the ends of all links.
#[derive(Clone, Copy)]
pub struct Start {
    pub net: Network,
    pub own: OwnEnds,
    pub closed: [u8; 96],
    pub sound: [u8; 96],
    pub faulty: [u8; 96],
    pub live: [u8; 96],
    pub restorable: [u8; 96],
    pub operable: [u8; 96],
}

// From the ends of all links, the states at the start, the labels of their parts, the sound sources and the faulty elements. A switch is operable where
// one of its ends is dark and restorable.
pub fn start_of(
    net: Network,
    own: OwnEnds,
    closed: [u8; 96],
    label: [u8; 64],
    sound: [u8; 96],
    faulty: [u8; 96],
) -> Start
    requires well_formed { WellFormed net }
    requires own_value { own ≡ all_ends net }
    requires closed_value { closed ≡ bits 96 net.links (net_of net).start_closed }
    requires label_value { label ≡ (parts_of net.from net.to closed net.links).label }
    requires sound_value { sound ≡ bits 96 net.elements (sound? (net_of net).grid) }
    requires faulty_value { faulty ≡ bits 96 net.elements (net_of net).grid.faulty }
    ensures { result ≡ start_of net }
{
    let from = net.from;
    let to = net.to;
    let form = net.form;
    let fixed = members_of(&form, 0, 0, net.links);
    let live = spread(&label, &sound, net.elements);
    let restorable = restorable_elements(net, &fixed, &faulty);
    let waiting = except(&restorable, &live, net.elements);
    let ends = at_either_end(&from, &to, &waiting, net.links);
    let operable = except(&ends, &fixed, net.links);
    Start {
        net,
        own,
        closed,
        sound,
        faulty,
        live,
        restorable,
        operable,
    }
}
