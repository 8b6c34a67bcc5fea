// What the cheapest valid plan costs: the planner's contract for the judge.
#![tactic(auto)]

ghost use Rattle.feeding.specs.Networks.{net_of};
ghost use Rattle.feeding_start.specs.Starting.{Begun};
ghost use Rattle.plan_least_cost.specs.LeastCost.{CheapestIn, CheapestFor};

use feeding_acceptance::read_accepted;
use feeding_start::Start;
use network::refusal::Refusal;
use plan_cheapest::cheapest_set;
use plan_switches::switches_of;

// What the cheapest valid plan of an accepted network costs, where it has one.
pub fn cheapest_cost(start: Start) -> Option<u64>
    requires { Begun start }
    ensures { CheapestIn (net_of start.net) result }
{
    let net = start.net;
    let operable = start.operable;
    let switches = switches_of(net, &operable);
    let best = cheapest_set(start, switches)?;
    Some(best.cost)
}

// What the cheapest valid plan of the network in a file costs.
pub fn cheapest_in(s: &[u8]) -> Result<Option<u64>, Refusal>
    ensures { CheapestFor s.now result }
{
    let start = read_accepted(s)?;
    Ok(cheapest_cost(start))
}
