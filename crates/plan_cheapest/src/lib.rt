// The cheapest set of operable switches that restores a network; the first in the set order where several cost the same.
#![tactic(auto)]

ghost use Rattle.std.specs.Prelude.{◌≡◌};
ghost use Rattle.feeding.specs.Networks.{net_of};
ghost use Rattle.feeding.specs.Costs.{set_cost};
ghost use Rattle.feeding_start.specs.Starting.{operable_in, Searchable};
ghost use Rattle.plan_problem.specs.Choosing.{works?};
ghost use Rattle.plan_problem.specs.Sets.{cheapest_by};
ghost use Rattle.plan_switches.specs.Switches.{switch_list};
ghost use Rattle.plan_cheapest.specs.Option.{found_by};

use feeding_sets::except;
use feeding_start::Start;
use feeding_walks::Walk;
use plan_candidates::{falls_short, seek_candidates};
use plan_lumping::{closable_ends, layers_for, lump_layers};
use plan_problem::Best;
use plan_switches::Switches;

// Of the sets of operable switches the cheapest that restores the network, or none; `switches` has the operable ones.
pub fn cheapest_set(start: Start, switches: Switches) -> Option<Best>
    requires searchable { Searchable start }
    requires switches_value { switches ≡ switch_list start.net (operable_in start) }
    ensures { result ≡ found_by (cheapest_by (operable_in start) (set_cost (net_of start.net)) (works? (net_of start.net))) }
{
    if falls_short(start) {
        return None;
    }
    let net = start.net;
    let closed = start.closed;
    let sound = start.sound;
    let operable = start.operable;
    let base = except(&closed, &operable, net.links);
    let link = switches.link;
    let layers = layers_for(switches.count);
    let lumped = lump_layers(net, base, &link, switches.count, &sound, layers);
    let left = lumped.base;
    let from = net.from;
    let to = net.to;
    let own = closable_ends(&from, &to, net.links, left, &link, switches.count);
    let load = lumped.load;
    let capacity = net.capacity;
    let walk = Walk {
        own,
        load,
        capacity,
        elements: net.elements,
        links: net.links,
    };
    let none = Best {
        cost: Best::NO_SET,
        set: 0,
    };
    let best = seek_candidates(start, switches, &base, &left, walk, none);
    if best.cost < Best::NO_SET {
        return Some(best);
    }
    None
}
