// A submitted plan examined step by step, each step by the parts that it touches: its first bad step, and the lowest reason that fits.
#![tactic(auto)]

ghost use Rattle.std.specs.Prelude.{◌≡◌, not, eqb, set, Ok};
ghost use Rattle.file_plan.specs.Accepted.{WellFormedPlan};
ghost use Rattle.feeding.specs.Networks.{net_of, at, is_in};
ghost use Rattle.feeding_start.specs.Starting.{Searchable};
ghost use Rattle.plan_form.specs.Printing.{steps_of};
ghost use Rattle.judge_marks.specs.Marks.{examined, steps_examined};
ghost use Rattle.judge_closing.specs.Checks.{closes_over};
ghost use Rattle.judge_examine.specs.Steps.{kept_safe, Steppable};

use feeding_start::Start;
use feeding_walks::{Walk, walk_of};
use file_plan::plan::Plan;
use judge_closing::{closing_safe, signs_of};
use judge_marks::{BadStep, Reason};

// One step of the link l from a safe configuration, which is stored in `closed` where it is good: operable is 1 for an operable switch, want is
// the state wanted.
fn examine_step(
    walk: &Walk,
    closed: &mut [u8; 96],
    sign: &mut [u32; 64],
    l: usize,
    operable: u8,
    want: u8,
    step: usize,
) -> Result<(), BadStep>
    requires { Steppable walk.now closed.old sign.old l }
    ensures value { result ≡ examined step (eqb operable 1) (not (eqb (at closed.old l) want)) (kept_safe want (closes_over walk.now closed.old sign.old l)) }
    ensures closed_after { result ≡ Ok tt → closed.new ≡ set closed.old l want }
    ensures sign_unchanged { sign.new ≡ sign.old }
{
    let state = closed[l];
    if operable != 1 {
        return Err(BadStep {
            step,
            reason: Reason::NotOperable,
        });
    }
    if state == want {
        return Err(BadStep {
            step,
            reason: Reason::AlreadySo,
        });
    }
    if want != 1 {
        closed[l] = want;
        return Ok(());
    }
    if closing_safe(walk, closed, sign, l) {
        return Ok(());
    }
    Err(BadStep {
        step,
        reason: Reason::Unsafe,
    })
}

// Whether all steps are good, or the first that is not.
pub fn examine(start: Start, plan: Plan) -> Result<(), BadStep>
    requires searchable { Searchable start }
    requires well_formed_plan { WellFormedPlan start.net.links plan }
    ensures { result ≡ steps_examined (net_of start.net) (is_in start.operable) (net_of start.net).start_closed 1 (steps_of plan) }
{
    if plan.steps == 0 {
        return Ok(());
    }
    let net = start.net;
    let flags = net.flags;
    let operable = start.operable;
    let walk = walk_of(&net, start.own);
    let mut sign = signs_of(&flags);
    let mut closed = start.closed;
    for i in 0..plan.steps as usize {
        let l = plan.link[i] as usize;
        let want = u8::from(plan.close[i]);
        examine_step(&walk, &mut closed, &mut sign, l, operable[l], want, i + 1)?;
    }
    Ok(())
}
