// A plan that was found, as a list of steps: how it was found stays behind it. Here it is the printed form of the cheapest set of operable switches.
#![tactic(auto)]

ghost use Rattle.std.specs.Prelude.{◌≡◌, ◌<◌};
ghost use Rattle.feeding.specs.Networks.{net_of};
ghost use Rattle.feeding.specs.Plans.{printed_form};
ghost use Rattle.feeding.specs.Costs.{cost_of, set_cost};
ghost use Rattle.feeding_start.specs.Starting.{operable_in, Searchable};
ghost use Rattle.plan_problem.specs.Choosing.{printed_plan, restored_over};
ghost use Rattle.plan_problem.specs.Sets.{set_in};
ghost use Rattle.plan_switches.specs.Switches.{switch_list};
ghost use Rattle.plan_found.specs.Finding.{FoundPlan, FoundBy};

use feeding_start::Start;
use file_plan::plan::Plan;
use plan_cheapest::cheapest_set;
use plan_form::printed_plan;
use plan_problem::Best;
use plan_switches::{Switches, switches_of, with_set};

// Its cost, its steps, and the states that it leaves, 1 for a closed link.
#[derive(Clone, Copy)]
pub struct Found {
    pub cost: u64,
    pub plan: Plan,
    pub closed: [u8; 96],
}

// The plan of a set of the switches, given as a number with its cost.
fn plan_of_set(start: Start, switches: Switches, best: Best) -> Found
    requires searchable { Searchable start }
    requires switches_value { switches ≡ switch_list start.net (operable_in start) }
    requires set_bound { best.set < 65536 }
    requires cost_value { best.cost ≡ set_cost (net_of start.net) (set_in (operable_in start) best.set) }
    ensures { FoundPlan start.net (cost_of (net_of start.net)) (printed_form (net_of start.net) (set_in (operable_in start) best.set)) result }
{
    let first = start.closed;
    let link = switches.link;
    let shut = switches.closed;
    let none: [u8; 16] = [0; 16];
    let set = best.set as u32;
    let operated = with_set([0; 96], &link, &none, switches.count, set);
    let closed = with_set(first, &link, &shut, switches.count, set);
    let plan = printed_plan(&operated, &first, start.net.links);
    let cost = best.cost;
    Found { cost, plan, closed }
}

// The cheapest plan over the operable switches of the start, where there is one.
pub fn cheapest_plan(start: Start) -> Option<Found>
    requires { Searchable start }
    ensures { FoundBy start.net (cost_of (net_of start.net)) (printed_plan (net_of start.net) (restored_over (net_of start.net) (operable_in start))) result }
{
    let net = start.net;
    let operable = start.operable;
    let switches = switches_of(net, &operable);
    let best = cheapest_set(start, switches)?;
    Some(plan_of_set(start, switches, best))
}
