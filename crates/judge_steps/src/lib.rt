// A submitted plan carried out: the states that it leads to, its cost, and what is still dark then.
#![tactic(auto)]

ghost use Rattle.std.specs.Prelude.{◌≡◌, ◌≤◌, eqb, length, take};
ghost use Rattle.std.specs.List.{position};
ghost use Rattle.network.specs.Accepted.{WellFormed};
ghost use Rattle.file_plan.specs.Accepted.{WellFormedPlan};
ghost use Rattle.feeding.specs.Below.{lowest, some_below};
ghost use Rattle.feeding.specs.Networks.{net_of, is_in};
ghost use Rattle.feeding.specs.Costs.{cost_of};
ghost use Rattle.feeding.specs.Parts.{closed_in};
ghost use Rattle.plan_form.specs.Printing.{steps_of};
ghost use Rattle.judge_marks.specs.Marks.{dark_place};
ghost use Rattle.feeding_start.specs.Starting.{Begun};
ghost use Rattle.judge_steps.specs.States.{states_run};

use feeding_restoration::joined_to;
use feeding_sets::except;
use feeding_start::Start;
use file_plan::plan::Plan;
use network::Network;

// The states that the steps lead to; closed[l] is 1 for a closed link.
pub fn states_after(start: [u8; 96], plan: Plan) -> [u8; 96]
    requires { WellFormedPlan 96 plan }
    ensures { result ≡ states_run start (steps_of plan) }
{
    let mut closed = start;
    for i in 0..plan.steps as usize {
        let link = plan.link[i] as usize;
        closed[link] = u8::from(plan.close[i]);
    }
    closed
}

// The cost of a plan with its guards, in one pass: paid[g] is 1 once the guard g is paid for.
pub fn plan_cost(net: Network, plan: Plan) -> u64
    requires well_formed { WellFormed net }
    requires well_formed_plan { WellFormedPlan net.links plan }
    ensures { result ≡ cost_of (net_of net) (steps_of plan) }
{
    let cost = net.cost;
    let guard = net.guard;
    let mut paid: [u8; 96] = [0; 96];
    let mut sum: u64 = 0;
    for i in 0..plan.steps as usize {
        let link = plan.link[i] as usize;
        sum += cost[link] as u64;
        let g = guard[link] as usize;
        if g < net.links && paid[g] == 0 {
            paid[g] = 1;
            sum += 2 * (cost[g] as u64);
        }
    }
    sum
}

// The lowest of the first numbers that is in the set.
fn lowest_member(has: &[u8], count: usize) -> Option<usize>
    requires { count ≤ length has.now }
    ensures { result ≡ position (λ x. eqb x 1) (take count has.now) }
{
    has[..count].iter().position(|&x| x == 1)
}

// The lowest restorable element that is dark in a configuration.
pub fn lowest_dark(start: Start, closed: &[u8]) -> Option<usize>
    requires begun { Begun start }
    requires closed_len { length closed.now ≡ 96 }
    ensures { result ≡ some_below start.net.elements (dark_place (net_of start.net) (closed_in closed.now)) }
{
    let net = start.net;
    let from = net.from;
    let to = net.to;
    let sound = start.sound;
    let restorable = start.restorable;
    let live = joined_to(&from, &to, closed, &sound, net.elements, net.links);
    let waiting = except(&restorable, &live, net.elements);
    lowest_member(&waiting, net.elements)
}
