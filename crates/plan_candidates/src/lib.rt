// The sets of operable switches whose last configuration is radial, keeps faults from sources, feeds every restorable element and asks no more of a
// source than it bears, tried in the set order: the search starts from the parts that stand while every operable switch is open.
#![tactic(auto)]

ghost use Rattle.std.specs.Prelude.{◌≡◌, ltb};
ghost use Rattle.feeding.specs.Networks.{at, is_in, net_of};
ghost use Rattle.feeding.specs.Costs.{set_cost};
ghost use Rattle.feeding_start.specs.Starting.{operable_in, Searchable};
ghost use Rattle.plan_problem.specs.Sets.{keep, scan, set_in};
ghost use Rattle.plan_switches.specs.Switches.{switch_list};
ghost use Rattle.plan_stops.specs.Supply.{demand, supply};
ghost use Rattle.plan_candidates.specs.Candidates.{asks_of, candidates_of, opened_in, fitting_in, Walked, Founded};

use feeding_parts::parts_of;
use feeding_sets::spread;
use feeding_start::Start;
use feeding_walks::Walk;
use plan_holdings::{holdings, waiting_parts};
use plan_problem::Best;
use plan_search::Search;
use plan_setting::Setting;
use plan_supply::{demand_of, spare_of};
use plan_switches::Switches;

// What the search starts from: the label of each element's part, at each label what its part holds and its number, and how many parts wait for a source.
#[derive(Clone, Copy)]
struct Origin {
    label: [u8; 64],
    holds: [u8; 64],
    spare: [u64; 64],
    waiting: usize,
}

// Whether all sound sources together bear less than all restorable elements ask: then no set restores the network.
pub fn falls_short(start: Start) -> bool
    requires { Searchable start }
    ensures { result ≡ ltb (supply (net_of start.net).grid) (demand (net_of start.net) (asks_of (net_of start.net))) }
{
    let load = start.net.load;
    let capacity = start.net.capacity;
    let sound = start.sound;
    let restorable = start.restorable;
    let asked = demand_of(&restorable, &load, &capacity, start.net.elements);
    // A source that is loaded to its capacity asks what it bears.
    let borne = demand_of(&sound, &capacity, &capacity, start.net.elements);
    borne < asked
}

// The parts where the links in `base` are closed.
fn origin_of<'a>(start: Start, base: &'a [u8; 96]) -> Origin
    requires searchable { Searchable start }
    requires base_value { base.now ≡ opened_in start }
    ensures { Founded start result }
{
    let net = start.net;
    let from = net.from;
    let to = net.to;
    let load = net.load;
    let capacity = net.capacity;
    let sound = start.sound;
    let faulty = start.faulty;
    let restorable = start.restorable;
    let elements = net.elements;
    let parts = parts_of(&from, &to, base, net.links);
    let label = parts.label;
    let live = spread(&label, &sound, elements);
    let fault = spread(&label, &faulty, elements);
    let need = spread(&label, &restorable, elements);
    let holds = holdings(&live, &fault, &need);
    let waiting = waiting_parts(&label, &holds, elements);
    let spare = spare_of(&label, &sound, &load, &capacity, elements);
    Origin {
        label,
        holds,
        spare,
        waiting,
    }
}

// The best set after each candidate in turn took the place of the best set so far, where it is cheaper and its loads stay within capacity. `base` has the links
// that are closed at the start but no operable switch, and `left` those of them that walks go over.
pub fn seek_candidates<'a>(
    start: Start,
    switches: Switches,
    base: &'a [u8; 96],
    left: &'a [u8; 96],
    walk: Walk,
    best: Best,
) -> Best
    requires searchable { Searchable start }
    requires switches_value { switches ≡ switch_list start.net (operable_in start) }
    requires base_value { base.now ≡ opened_in start }
    requires walked { Walked start.net switches left.now walk }
    ensures { result ≡ scan (keep (λ s. set_cost (net_of start.net) (set_in (operable_in start) s)) (fitting_in start switches left.now walk)) (candidates_of (net_of start.net) (is_in start.operable)) best }
{
    let origin = origin_of(start, base);
    let guard = start.net.guard;
    let cost = start.net.cost;
    let sound = start.sound;
    let setting = Setting::new(switches, &guard, &cost, &sound, origin.waiting, walk);
    let states = *left;
    let parent = origin.label;
    let holds = origin.holds;
    let spare = origin.spare;
    let mut search = Search {
        states,
        parent,
        holds,
        spare,
        best,
    };
    search.seek(&setting, 0, 0, 0, 0);
    search.best
}
