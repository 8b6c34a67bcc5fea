// The plan file, and the input that is a plan file alone: every byte string has one reading.
#![tactic(auto)]

pub mod plan;
pub mod reader;

ghost use Rattle.std.specs.Prelude.{◌≡◌};
ghost use Rattle.file_plan.specs.Inputs.{plan_input, plan_read};

use crate::plan::Plan;
use crate::reader::plan_file;
use file_network::ended;
use network::refusal::Refusal;

// A plan file alone, from an offset on, for a network of so many links.
pub fn read_plan(s: &[u8], at: usize, links: usize) -> Result<Plan, Refusal>
    ensures { result ≡ plan_read (plan_input s.now links at) }
{
    let part = plan_file(s, at, links)?;
    ended(s, part.at)?;
    Ok(part.value)
}
