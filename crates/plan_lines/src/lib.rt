// The planner's printed lines, into the front of a lent array.
#![tactic(auto)]

ghost use Rattle.std.specs.Prelude.{◌≡◌, ◌+◌, ◌*◌, ◌≤◌, length};
ghost use Rattle.std.proofs.lemmas.List.Edits.{sets};
ghost use Rattle.texts.specs.Texts.{in_front};
ghost use Rattle.plan_lines.specs.Lines.{step_word, step_line, step_lines, load_line, margin_line};
ghost use Rattle.plan_lines.specs.Lines.{text_of, tail_lines, tail_room, plan_lines, none_lines};

use feeding_margins::Spot;
use file_plan::plan::Plan;
use plan_sums::Sums;
use texts::{put_feed, put_field, put_line, put_signed, put_text};

// The word of a step.
fn put_word(out: &mut [u8], at: usize, close: bool) -> usize
    requires { at + 5 ≤ length out.old }
    ensures value { result ≡ at + length (step_word close) }
    ensures out_after { out.new ≡ sets out.old at (step_word close) }
{
    if close {
        return put_text(out, at, b"CLOSE");
    }
    put_text(out, at, b"OPEN")
}

// `OPEN link` or `CLOSE link`.
fn put_step(out: &mut [u8], at: usize, link: u16, close: bool) -> usize
    requires { at + 12 ≤ length out.old }
    ensures upper_bound { result ≤ at + 12 }
    ensures value { result ≡ at + length (step_line link close) }
    ensures out_after { out.new ≡ sets out.old at (step_line link close) }
{
    let word = put_word(out, at, close);
    let first = put_field(out, word, link as u64);
    put_feed(out, first)
}

// A line for each step of the plan.
fn put_steps(out: &mut [u8], at: usize, plan: Plan) -> usize
    requires { at + 12 * plan.steps ≤ length out.old }
    ensures upper_bound { result ≤ at + 12 * plan.steps }
    ensures value { result ≡ at + length (step_lines plan plan.steps) }
    ensures out_after { out.new ≡ sets out.old at (step_lines plan plan.steps) }
{
    let mut next = at;
    for i in 0..plan.steps as usize {
        next = put_step(out, next, plan.link[i], plan.close[i]);
    }
    next
}

// `LOAD fed dark lost`.
fn put_load(out: &mut [u8], at: usize, sums: Sums) -> usize
    requires { at + 68 ≤ length out.old }
    ensures value { result ≡ at + length (load_line sums) }
    ensures out_after { out.new ≡ sets out.old at (load_line sums) }
{
    let word = put_text(out, at, b"LOAD");
    let first = put_field(out, word, sums.fed);
    let second = put_field(out, first, sums.dark);
    let third = put_field(out, second, sums.lost);
    put_feed(out, third)
}

// `MARGIN element number`, or `MARGIN -`.
fn put_margin(out: &mut [u8], at: usize, spot: Option<Spot>) -> usize
    requires { at + 50 ≤ length out.old }
    ensures upper_bound { result ≤ at + 50 }
    ensures value { result ≡ at + length (margin_line spot) }
    ensures out_after { out.new ≡ sets out.old at (margin_line spot) }
{
    let word = put_text(out, at, b"MARGIN");
    match spot {
        None => {
            let mark = put_text(out, word, b" -");
            return put_feed(out, mark);
        }
        Some(tightest) => {
            let first = put_field(out, word, tightest.element as u64);
            let second = put_signed(out, first, tightest.margin);
            return put_feed(out, second);
        }
    }
}

// The lines behind the steps: LOAD.
fn put_tail(out: &mut [u8], at: usize, sums: Sums) -> usize
    requires { at + tail_room ≤ length out.old }
    ensures upper_bound { result ≤ at + tail_room }
    ensures value { result ≡ at + length (text_of (tail_lines sums)) }
    ensures out_after { out.new ≡ sets out.old at (text_of (tail_lines sums)) }
{
    put_load(out, at, sums)
}

// The lines for a plan with its cost; later bytes keep their values.
pub fn plan_lines(plan: Plan, cost: u64, sums: Sums, out: &mut [u8; 4096]) -> usize
    ensures value { result ≡ length (plan_lines plan cost sums) }
    ensures out_after { out.new ≡ in_front (plan_lines plan cost sums) out.old }
{
    let steps = plan.steps as u64;
    let first = put_line(out, 0, b"PLAN", steps, cost);
    let second = put_steps(out, first, plan);
    put_tail(out, second, sums)
}

// The lines where there is no plan.
pub fn none_lines(sums: Sums, out: &mut [u8; 4096]) -> usize
    ensures value { result ≡ length (none_lines sums) }
    ensures out_after { out.new ≡ in_front (none_lines sums) out.old }
{
    let word = put_text(out, 0, b"NONE");
    let first = put_feed(out, word);
    put_tail(out, first, sums)
}
