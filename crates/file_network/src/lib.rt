// The network file, and the input that is a network file alone: every byte string has one reading. Rule 13.
#![tactic(auto)]

pub mod reader;

ghost use Rattle.std.specs.Prelude.{◌≡◌};
ghost use Rattle.file_network.specs.Inputs.{network_input, network_read, ended_by};

use crate::reader::network_file;
use network::Network;
use network::refusal::{Refusal, Rule};

// Rule 13: no byte follows the last end record.
pub fn ended(s: &[u8], at: usize) -> Result<(), Refusal>
    ensures { result ≡ ended_by s.now at }
{
    if at < s.len() {
        return Err(Refusal {
            rule: Rule::ByteAfterEnd,
            place: at,
        });
    }
    Ok(())
}

// The planner's input.
pub fn read_network(s: &[u8]) -> Result<Network, Refusal>
    ensures { result ≡ network_read (network_input s.now) }
{
    let part = network_file(s)?;
    ended(s, part.at)?;
    Ok(part.value)
}
