// The printed form of a set of switches as a plan: the openings, then the closings, each by rising link number.
#![tactic(auto)]

ghost use Rattle.std.specs.Prelude.{◌≡◌, ◌+◌, ◌≤◌, length};
ghost use Rattle.feeding.specs.Plans.{sweep};
ghost use Rattle.file_plan.specs.PlanFiles.{empty_plan};
ghost use Rattle.plan_form.specs.Printing.{PlanReach, plan_with, in_state, form_of};

use file_plan::plan::Plan;

// The plan with a step for each of the first links that is in the set and whose state at the start is the one given; the step turns it over.
fn with_steps(
    plan: Plan,
    operated: &[u8],
    closed: &[u8],
    state: u8,
    close: bool,
    links: usize,
) -> Plan
    requires { PlanReach plan operated.now closed.now links }
    ensures { result ≡ plan_with plan (sweep close (in_state operated.now closed.now state) links) }
{
    let mut longer = plan;
    for l in 0..links {
        if operated[l] == 1 && closed[l] == state {
            let i = longer.steps as usize;
            longer.link[i] = l as u16;
            longer.close[i] = close;
            longer.steps += 1;
        }
    }
    longer
}

// operated[l] is 1 for a switch of the set, closed[l] is 1 for a link that is closed at the start and 0 for the others.
pub fn printed_plan(operated: &[u8], closed: &[u8], links: usize) -> Plan
    requires { (links ≤ 96) × (links ≤ length operated.now) × (links ≤ length closed.now) }
    ensures { result ≡ plan_with empty_plan (form_of operated.now closed.now links) }
{
    let opened = with_steps(Plan::empty(), operated, closed, 1, false, links);
    with_steps(opened, operated, closed, 0, true, links)
}
