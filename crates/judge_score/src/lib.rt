// The mark of a plan in an accepted network, and of two with the cheapest cost found once.
#![tactic(auto)]

ghost use Rattle.std.specs.Prelude.{◌≡◌, ◌||◌};
ghost use Rattle.file_plan.specs.Accepted.{WellFormedPlan};
ghost use Rattle.feeding.specs.Networks.{net_of};
ghost use Rattle.feeding_start.specs.Starting.{Begun};
ghost use Rattle.feeding.specs.Costs.{cost_of};
ghost use Rattle.feeding.specs.Plans.{run};
ghost use Rattle.plan_form.specs.Printing.{steps_of};
ghost use Rattle.judge_marks.specs.Marks.{dark_place, standing_at, standing_of, complete?, cost_asked, AtMost, mark_with, mark_of};

use feeding_start::Start;
use file_plan::plan::Plan;
use judge_examine::examine;
use judge_marks::{BothMarks, Mark, Score, Standing};
use judge_steps::{lowest_dark, plan_cost, states_after};
use plan_least_cost::cheapest_cost;

// Where all steps are good: the lowest element still dark, or what the plan costs.
fn finished(start: Start, plan: Plan) -> Standing
    requires begun { Begun start }
    requires well_formed_plan { WellFormedPlan start.net.links plan }
    ensures { result ≡ standing_at (net_of start.net) (cost_of (net_of start.net) (steps_of plan)) (dark_place (net_of start.net) (run (net_of start.net).start_closed (steps_of plan))) }
{
    let closed = states_after(start.closed, plan);
    match lowest_dark(start, &closed) {
        Some(dark) => Standing::Short(dark),
        None => Standing::Complete(plan_cost(start.net, plan)),
    }
}

// How a plan stands before the cheapest cost is known.
fn standing_of(start: Start, plan: Plan) -> Standing
    requires begun { Begun start }
    requires well_formed_plan { WellFormedPlan start.net.links plan }
    ensures { result ≡ standing_of (net_of start.net) (steps_of plan) }
{
    match examine(start, plan) {
        Err(bad) => Standing::Broken(bad),
        Ok(()) => finished(start, plan),
    }
}

// Whether the cheapest cost is asked for.
fn complete(found: Standing) -> bool
    ensures { result ≡ complete? found }
{
    matches!(found, Standing::Complete(_))
}

fn either_complete(one: Standing, other: Standing) -> bool
    ensures { result ≡ (complete? one || complete? other) }
{
    complete(one) || complete(other)
}

// The cheapest cost where it is asked for and there is one, and else 0.
fn least_asked(start: Start, asked: bool) -> u64
    requires { Begun start }
    ensures { result ≡ cost_asked (net_of start.net) asked }
{
    if !asked {
        return 0;
    }
    match cheapest_cost(start) {
        Some(least) => least,
        None => 0,
    }
}

// The mark of a plan that stands so, by the cheapest cost.
fn mark_with(least: u64, found: Standing) -> Mark
    requires { AtMost least found }
    ensures { result ≡ mark_with least found }
{
    match found {
        Standing::Broken(bad) => Mark::Broken(bad),
        Standing::Short(dark) => Mark::Short(dark),
        Standing::Complete(cost) => {
            let excess = cost - least;
            Mark::Valid(Score { cost, excess })
        }
    }
}

// The mark of a plan in an accepted network.
pub fn marked(start: Start, plan: Plan) -> Mark
    requires begun { Begun start }
    requires well_formed_plan { WellFormedPlan start.net.links plan }
    ensures { result ≡ mark_of (net_of start.net) (steps_of plan) }
{
    let found = standing_of(start, plan);
    let asked = complete(found);
    let least = least_asked(start, asked);
    mark_with(least, found)
}

// The marks of two plans in an accepted network. The cheapest cost is asked for once, and only where a plan is valid.
pub fn both_marked(start: Start, first: Plan, second: Plan) -> BothMarks
    requires begun { Begun start }
    requires well_formed_plan { WellFormedPlan start.net.links first × WellFormedPlan start.net.links second }
    ensures first_value { result.first ≡ mark_of (net_of start.net) (steps_of first) }
    ensures second_value { result.second ≡ mark_of (net_of start.net) (steps_of second) }
{
    let one = standing_of(start, first);
    let other = standing_of(start, second);
    let asked = either_complete(one, other);
    let least = least_asked(start, asked);
    let first = mark_with(least, one);
    let second = mark_with(least, other);
    BothMarks { first, second }
}
