// The outcomes for a network file: the plan with its cost and loads, that there is none, or a refusal.
#![tactic(auto)]

ghost use Rattle.std.specs.Prelude.{◌≡◌};
ghost use Rattle.feeding_start.specs.Starting.{Begun};
ghost use Rattle.plan_outcome.specs.Outcomes.{outcome_given};

use feeding_start::Start;
use file_plan::plan::Plan;
use network::refusal::Refusal;
use plan_found::Found;
use plan_sums::{Sums, sums_after};

// A plan that was found: its number of steps, its cost, and the loads after it.
#[derive(Clone, Copy)]
pub struct Planned {
    pub steps: usize,
    pub cost: u64,
    pub sums: Sums,
}

// The reply to a network file. Loads are those after the plan, or at the start where there is none.
// An enum of its own and no Result: the C interface numbers these three.
#[derive(Clone, Copy)]
pub enum Reply {
    Plan(Planned),
    NoPlan(Sums),
    Refused(Refusal),
}

// A reply with its plan; the empty plan where there is none. It stays beside the reply: the theorems in `plan_outcome`,
// `planner` and `theorems` speak of both by `outcome`.
#[derive(Clone, Copy)]
pub struct Outcome {
    pub reply: Reply,
    pub plan: Plan,
}

// The outcome for an accepted network, from what was found: the loads are those of the states that were left, or those at the start.
pub fn outcome_of(start: Start, found: Option<Found>) -> Outcome
    requires { Begun start }
    ensures { result ≡ outcome_given start.net found }
{
    match found {
        Some(f) => {
            let closed = f.closed;
            let plan = f.plan;
            let cost = f.cost;
            let steps = plan.steps as usize;
            let sums = sums_after(start, &closed);
            Outcome {
                reply: Reply::Plan(Planned { steps, cost, sums }),
                plan,
            }
        }
        None => {
            let closed = start.closed;
            let sums = sums_after(start, &closed);
            let plan = Plan::empty();
            Outcome {
                reply: Reply::NoPlan(sums),
                plan,
            }
        }
    }
}
