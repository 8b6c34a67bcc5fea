// The plan file out, into a lent buffer.
#![tactic(auto)]

ghost use Rattle.std.specs.Prelude.{◌≡◌, ◌+◌, ◌*◌, ◌<◌, ◌≤◌, length};
ghost use Rattle.std.proofs.lemmas.List.Edits.{sets};
ghost use Rattle.file_writer.specs.Writing.{number, plan_head_bytes, step_bytes, steps_bytes, end_bytes, plan_length, written, buffer_after};

use file_plan::plan::Plan;
use network::refusal::{Refusal, Rule};

// A number of two bytes, low byte first.
fn put_word(buffer: &mut [u8], at: usize, value: u16)
    requires { at + 2 ≤ length buffer.old }
    ensures { buffer.new ≡ sets buffer.old at (number value) }
{
    buffer[at] = (value % 256) as u8;
    buffer[at + 1] = (value / 256) as u8;
}

fn put_step(buffer: &mut [u8], at: usize, link: u16, close: bool)
    requires { at + 8 ≤ length buffer.old }
    ensures { buffer.new ≡ sets buffer.old at (step_bytes link close) }
{
    put_word(buffer, at, 8);
    put_word(buffer, at + 2, 6);
    put_word(buffer, at + 4, link);
    put_word(buffer, at + 6, close as u16);
}

fn put_head(buffer: &mut [u8], steps: u8)
    requires { 6 ≤ length buffer.old }
    ensures { buffer.new ≡ sets buffer.old 0 (plan_head_bytes steps) }
{
    put_word(buffer, 0, 6);
    put_word(buffer, 2, 5);
    put_word(buffer, 4, steps as u16);
}

fn put_end(buffer: &mut [u8], at: usize)
    requires { at + 4 ≤ length buffer.old }
    ensures { buffer.new ≡ sets buffer.old at end_bytes }
{
    put_word(buffer, at, 4);
    put_word(buffer, at + 2, 4);
}

// All steps, behind the plan head.
fn put_steps(buffer: &mut [u8], plan: Plan)
    requires { 6 + 8 * plan.steps ≤ length buffer.old }
    ensures { buffer.new ≡ sets buffer.old 6 (steps_bytes plan plan.steps) }
{
    let count = plan.steps as usize;
    for i in 0..count {
        let link = plan.link[i];
        let close = plan.close[i];
        put_step(buffer, 6 + 8 * i, link, close);
    }
}

// The length of a plan's file.
fn plan_length(plan: Plan) -> usize
    ensures { result ≡ plan_length plan }
{
    let steps = plan.steps as usize;
    10 + 8 * steps
}

// The plan's file into the front of `buffer`: its length.
pub fn write_plan(plan: Plan, buffer: &mut [u8]) -> Result<usize, Refusal>
    ensures value { result ≡ written plan buffer.old }
    ensures buffer_after { buffer.new ≡ buffer_after plan buffer.old }
{
    let needed = plan_length(plan);
    if buffer.len() < needed {
        return Err(Refusal {
            rule: Rule::BufferTooShort,
            place: needed,
        });
    }
    let steps = plan.steps;
    put_head(buffer, steps);
    put_steps(buffer, plan);
    put_end(buffer, needed - 4);
    Ok(needed)
}
