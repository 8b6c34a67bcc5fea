// What is made ready before sets of switches are tried: the links that a set can leave closed, as chained ends, and the loads with spurs lumped.
#![tactic(auto)]

ghost use Rattle.std.specs.Prelude.{◌≡◌, length};
ghost use Rattle.network.specs.Accepted.{WellFormed};
ghost use Rattle.feeding_ends.specs.Ends.{TwoEnds};
ghost use Rattle.plan_switches.specs.Switches.{SwitchReach};
ghost use Rattle.plan_lumping.specs.Layers.{closable_ends, layers_for, lumped_layers};

use feeding_ends::{OwnEnds, own_ends};
use network::Network;
use plan_spurs::{Lumped, lump_spurs};
use plan_switches::with_set;

// For fewer switches lumping costs more than it spares.
const MANY_SWITCHES: usize = 10;

// Few spurs hang by more layers than these.
const LAYERS: usize = 4;

// The chained ends of the links that a set can leave closed: those in `base`, and the switches.
pub fn closable_ends<'a>(
    from: &'a [u16; 96],
    to: &'a [u16; 96],
    links: usize,
    base: [u8; 96],
    link: &'a [u8; 16],
    count: usize,
) -> OwnEnds
    requires two_ends { TwoEnds from.now to.now base links }
    requires switch_reach { SwitchReach link.now count × (length base ≡ 96) }
    ensures { result ≡ closable_ends from.now to.now links link.now count base }
{
    let all: [u8; 16] = [1; 16];
    let closable = with_set(base, link, &all, count, 0);
    own_ends(from, to, &closable, links)
}

// How many layers of spurs are lumped before sets of this many switches are tried.
pub fn layers_for(switches: usize) -> usize
    ensures { result ≡ layers_for switches }
{
    if switches < MANY_SWITCHES {
        return 0;
    }
    LAYERS
}

// The loads with `layers` layers of spurs lumped: what a spur hung from may be one itself then.
pub fn lump_layers<'a>(
    net: Network,
    base: [u8; 96],
    link: &'a [u8; 16],
    count: usize,
    sound: &'a [u8; 96],
    layers: usize,
) -> Lumped
    requires well_formed { WellFormed net }
    requires switch_reach { SwitchReach link.now count × (length base ≡ 96) }
    ensures { result ≡ lumped_layers net link.now count sound.now (record { base = base; load = net.load }) layers }
{
    let mut lumped = Lumped {
        base,
        load: net.load,
    };
    for _i in 0..layers {
        let own = closable_ends(&net.from, &net.to, net.links, lumped.base, link, count);
        lumped = lump_spurs(own, sound, &net.capacity, lumped, net.elements);
    }
    lumped
}
