// The judge's input, a network file with a plan file directly behind it: every byte string has one reading.
#![tactic(auto)]

ghost use Rattle.std.specs.Prelude.{◌≡◌};
ghost use Rattle.file_both.specs.Inputs.{plan_behind, both_input, both_read};

use file_network::reader::network_file;
use file_plan::plan::Plan;
use file_plan::read_plan;
use network::Network;
use network::refusal::Refusal;

#[derive(Clone, Copy)]
pub struct Both {
    pub net: Network,
    pub plan: Plan,
}

fn plan_behind(s: &[u8], at: usize, net: Network) -> Result<Both, Refusal>
    ensures { result ≡ both_read (plan_behind s.now at net) }
{
    let links = net.links;
    let plan = read_plan(s, at, links)?;
    Ok(Both { net, plan })
}

// The network file first, then the plan file behind it.
pub fn read_network_and_plan(s: &[u8]) -> Result<Both, Refusal>
    ensures { result ≡ both_read (both_input s.now) }
{
    let part = network_file(s)?;
    plan_behind(s, part.at, part.value)
}
