// What a network file is answered: the outcome of the cheapest plan.
#![tactic(auto)]

ghost use Rattle.std.specs.Prelude.{◌≡◌};
ghost use Rattle.feeding_start.specs.Starting.{Begun};
ghost use Rattle.plan_outcome.specs.Outcomes.{outcome_of, outcome};

use feeding_acceptance::read_accepted;
use feeding_start::Start;
use file_plan::plan::Plan;
use plan_found::cheapest_plan;
use plan_outcome::{Outcome, Reply, outcome_of};

// What an accepted network is answered.
fn solve(start: Start) -> Outcome
    requires { Begun start }
    ensures { result ≡ outcome_of start.net }
{
    let found = cheapest_plan(start);
    outcome_of(start, found)
}

// What a network file is answered.
pub fn answer(s: &[u8]) -> Outcome
    ensures { result ≡ outcome s.now }
{
    match read_accepted(s) {
        Ok(start) => solve(start),
        Err(refusal) => {
            let plan = Plan::empty();
            Outcome {
                reply: Reply::Refused(refusal),
                plan,
            }
        }
    }
}
