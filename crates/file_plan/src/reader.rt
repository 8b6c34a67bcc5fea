// The plan file: one plan head, its steps, one end.
ghost use Rattle.std.specs.Prelude.{◌≡◌, ◌+◌, ◌<◌, ◌≤◌, length};
ghost use Rattle.file_fields.specs.Fields.{word};
ghost use Rattle.file_fields.specs.Views.{links_seen, seen_in};
ghost use Rattle.file_network.specs.Runs.{records, always};
ghost use Rattle.file_network.specs.Inputs.{part_of};
ghost use Rattle.file_plan.specs.PlanFiles.{empty_plan, with_step, plan_file, steps_on, plan_end_on};
ghost use Rattle.file_stages.specs.declared.Stage.TheVariants.{Steps};

use crate::plan::Plan;
use file_fields::{Seen, word_at};
use file_network::reader::Part;
use file_records::due_at;
use file_stages::{Stage, after_last};
use network::refusal::Refusal;

// So many step records from an offset on, by what was read before them.
fn read_steps(
    s: &[u8],
    count: usize,
    start: usize,
    first: Stage,
    seen: Seen,
) -> Result<Part<Plan>, Refusal>
    requires { (count ≤ 255) × (first ≡ Steps) }
    ensures { result ≡ part_of (records s.now (always (seen_in seen.entry)) (with_step s.now) count start first empty_plan) }
{
    let mut plan = Plan::empty();
    let mut at = start;
    let mut stage = first;
    for i in 0..count {
        let record = due_at(s, at, stage, seen)?;
        plan.link[i] = word_at(s, at + 4);
        plan.close[i] = word_at(s, at + 6) == 1;
        plan.steps += 1;
        at += record.length as usize;
        stage = record.next;
    }
    let value = plan;
    Ok(Part { value, at, stage })
}

fn end_of_plan(
    s: &[u8],
    at: usize,
    stage: Stage,
    seen: Seen,
    plan: Plan,
) -> Result<Part<Plan>, Refusal>
    ensures { result ≡ part_of (plan_end_on s.now (seen_in seen.entry) at stage plan) }
{
    let record = due_at(s, at, stage, seen)?;
    let after = at + record.length as usize;
    Ok(Part {
        value: plan,
        at: after,
        stage: record.next,
    })
}

fn steps_on(
    s: &[u8],
    head: usize,
    at: usize,
    stage: Stage,
    seen: Seen,
) -> Result<Part<Plan>, Refusal>
    requires { (head + 6 ≤ length s.now) × (word s.now (head + 4) ≤ 255) × (stage ≡ Steps) }
    ensures { result ≡ part_of (steps_on s.now (seen_in seen.entry) head at stage empty_plan) }
{
    let count = word_at(s, head + 4) as usize;
    let part = read_steps(s, count, at, stage, seen)?;
    end_of_plan(s, part.at, after_last(part.stage), seen, part.value)
}

// The plan file at an offset of `s` in a network of so many links, whatever follows it.
pub fn plan_file(s: &[u8], at: usize, links: usize) -> Result<Part<Plan>, Refusal>
    ensures { result ≡ part_of (plan_file s.now links at) }
{
    let none = [0; 96];
    let seen = Seen {
        elements: 0,
        links,
        form: &none,
    };
    let head = due_at(s, at, Stage::PlanHead, seen)?;
    let after = at + head.length as usize;
    steps_on(s, at, after, head.next, seen)
}
