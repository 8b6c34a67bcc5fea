// Whether a configuration is safe, and the rule of 14 to 17 that it breaks first, with its place.
#![tactic(auto)]

ghost use Rattle.std.specs.Prelude.{◌≡◌, ◌<◌, length, replicate};
ghost use Rattle.network.specs.Accepted.{WellFormed};
ghost use Rattle.feeding.specs.Networks.{net_of, at, is_in};
ghost use Rattle.feeding.specs.Parts.{closed_in};
ghost use Rattle.feeding.specs.Acceptance.{safety};
ghost use Rattle.feeding.specs.Below.{bits};
ghost use Rattle.feeding_ends.specs.Ends.{own_ends};
ghost use Rattle.feeding_parts.specs.Labelling.{parts_of};
ghost use Rattle.feeding_sets.specs.Sets.{one_of};
ghost use Rattle.feeding_safety.specs.Checks.{unbroken};

use feeding_ends::OwnEnds;
use feeding_loads::{Lists, over_place};
use feeding_parts::{Parts, last_of_part};
use feeding_places::{fault_place, pair_place, tree_place};
use network::Network;
use network::refusal::{Refusal, Rule};

// A rule is unbroken where no place breaks it.
fn unbroken(rule: Rule, place: Option<usize>) -> Result<(), Refusal>
    ensures { result ≡ unbroken rule place }
{
    match place {
        Some(place) => Err(Refusal { rule, place }),
        None => Ok(()),
    }
}

// The first of rules 14 to 17 that the configuration breaks; closed[l] is 1 for a closed link, `own` has the ends of all links, `sound` the sound sources,
// `faulty` the faulty elements, and `parts` are those of the configuration.
pub fn check<'a>(
    net: Network,
    own: OwnEnds,
    closed: &'a [u8],
    sound: &'a [u8],
    faulty: &'a [u8],
    parts: Parts,
) -> Result<(), Refusal>
    requires well_formed { WellFormed net }
    requires own_value { own ≡ own_ends (at net.from) (at net.to) (is_in (replicate 96 1)) net.links }
    requires closed_len { length closed.now ≡ 96 }
    requires sound_value { sound.now ≡ bits 96 net.elements (one_of net.flags 1 1) }
    requires faulty_value { faulty.now ≡ bits 96 net.elements (one_of net.flags 2 3) }
    requires parts_value { parts ≡ parts_of net.from net.to closed.now net.links }
    ensures { result ≡ safety (net_of net).grid (closed_in closed.now) }
{
    let tree = tree_place(&parts.label, &parts.looped, net.elements);
    unbroken(Rule::NotATree, tree)?;
    let last = last_of_part(&parts.label, sound, net.elements);
    let pair = pair_place(&parts.label, sound, &last, net.elements);
    unbroken(Rule::TwoSources, pair)?;
    let fault = fault_place(&parts.label, faulty, &last, net.elements);
    unbroken(Rule::FaultWithSource, fault)?;
    let lists = Lists {
        head: &own.head,
        next: &own.next,
        far: &own.far,
        closed,
        load: &net.load,
        elements: net.elements,
        links: net.links,
    };
    let over = over_place(&lists, &net.capacity, sound);
    unbroken(Rule::Overloaded, over)
}
