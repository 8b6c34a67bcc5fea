// Rules 14 to 18: a network that passed rules 1 to 13 and 20 is refused by the first that it breaks, or accepted, with
// all that is known of it at the start.
#![tactic(auto)]

ghost use Rattle.std.specs.Prelude.{◌≡◌, length};
ghost use Rattle.network.specs.Accepted.{WellFormed};
ghost use Rattle.file_network.specs.Inputs.{network_input, network_read};
ghost use Rattle.feeding.specs.Acceptance.{limited, answer_to};
ghost use Rattle.feeding.specs.Networks.{net_of};
ghost use Rattle.feeding.specs.Restoration.{operables};
ghost use Rattle.feeding_start.specs.Starting.{start_of};
ghost use Rattle.feeding_acceptance.specs.Reading.{Admission, handed_out, accepted_read};

use feeding_ends::own_ends;
use feeding_parts::parts_of;
use feeding_safety::check;
use feeding_sets::{count_of, members_of};
use feeding_start::{Start, start_of};
use file_network::read_network;
use network::Network;
use network::refusal::{Refusal, Rule};

// Rule 18.
fn within_limit(start: Start, limit: usize) -> Result<Start, Refusal>
    requires well_formed { WellFormed start.net }
    requires start_value { start ≡ start_of start.net }
    ensures { result ≡ handed_out start.net (limited limit (length (operables (net_of start.net)))) }
{
    let operable = start.operable;
    let count = count_of(&operable, start.net.links);
    if limit < count {
        return Err(Refusal {
            rule: Rule::TooManyOperable,
            place: count,
        });
    }
    Ok(start)
}

pub fn accept(net: Network) -> Result<Start, Refusal>
    requires { WellFormed net }
    ensures { result ≡ handed_out net (answer_to net) }
{
    let from = net.from;
    let to = net.to;
    let form = net.form;
    let flags = net.flags;
    let all: [u8; 96] = [1; 96];
    let own = own_ends(&from, &to, &all, net.links);
    let closed = members_of(&form, 0, 2, net.links);
    let sound = members_of(&flags, 1, 1, net.elements);
    let faulty = members_of(&flags, 2, 3, net.elements);
    let parts = parts_of(&from, &to, &closed, net.links);
    check(net, own, &closed, &sound, &faulty, parts)?;
    let label = parts.label;
    let start = start_of(net, own, closed, label, sound, faulty);
    within_limit(start, Network::MAX_OPERABLE)
}

// The planner's input: rules 1 to 13 and 20, then 14 to 18.
pub fn read_accepted(s: &[u8]) -> Result<Start, Refusal>
    ensures value { result ≡ accepted_read (network_read (network_input s.now)) }
    ensures admission { Admission s.now result }
{
    let net = read_network(s)?;
    accept(net)
}
