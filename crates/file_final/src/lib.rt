// The input of a trial final, a network file and two plan files: in one input, or lent apart. All bytes have one reading.
#![tactic(auto)]

ghost use Rattle.std.specs.Prelude.{◌≡◌, ◌≤◌};
ghost use Rattle.file_plan.specs.Inputs.{plan_input, plan_read};
ghost use Rattle.file_final.specs.Inputs.{counted_on, second_behind, plans_behind, final_input, second_lent, plans_lent, files_input, final_read};

use file_network::read_network;
use file_network::reader::network_file;
use file_plan::plan::Plan;
use file_plan::read_plan;
use file_plan::reader::plan_file;
use network::Network;
use network::refusal::Refusal;

// What was read, with the offsets of the first plan file, of the second and of the end, all three files counted through.
#[derive(Clone, Copy)]
pub struct FinalRead {
    pub net: Network,
    pub first: Plan,
    pub second: Plan,
    pub start: usize,
    pub middle: usize,
    pub end: usize,
}

fn second_behind(
    s: &[u8],
    net: Network,
    start: usize,
    middle: usize,
    first: Plan,
) -> Result<FinalRead, Refusal>
    ensures { result ≡ final_read (second_behind s.now net start middle first) }
{
    let links = net.links;
    let second = read_plan(s, middle, links)?;
    let end = s.len();
    Ok(FinalRead {
        net,
        first,
        second,
        start,
        middle,
        end,
    })
}

fn plans_behind(s: &[u8], start: usize, net: Network) -> Result<FinalRead, Refusal>
    ensures { result ≡ final_read (plans_behind s.now start net) }
{
    let links = net.links;
    let part = plan_file(s, start, links)?;
    second_behind(s, net, start, part.at, part.value)
}

// One input: the network file first, then the first plan file, then the second. Never inlined, so that the stack that reading
// takes is free again when what was read is judged.
#[inline(never)]
pub fn read_final(s: &[u8]) -> Result<FinalRead, Refusal>
    ensures { result ≡ final_read (final_input s.now) }
{
    let part = network_file(s)?;
    plans_behind(s, part.at, part.value)
}

// A plan file lent behind so many bytes of others: the place of a refusal counts on.
fn read_plan_behind(before: usize, s: &[u8], links: usize) -> Result<Plan, Refusal>
    requires { before ≤ 4302 }
    ensures { result ≡ plan_read (counted_on before (plan_input s.now links 0)) }
{
    // a match, since the proof of `map_err` with this closure did not close
    match read_plan(s, 0, links) {
        Ok(plan) => Ok(plan),
        Err(refusal) => {
            let rule = refusal.rule;
            let place = before + refusal.place;
            Err(Refusal { rule, place })
        }
    }
}

fn second_lent(
    second: &[u8],
    net: Network,
    start: usize,
    middle: usize,
    first: Plan,
) -> Result<FinalRead, Refusal>
    requires { middle ≤ 4302 }
    ensures { result ≡ final_read (second_lent second.now net start middle first) }
{
    let links = net.links;
    let last = read_plan_behind(middle, second, links)?;
    let end = middle + second.len();
    Ok(FinalRead {
        net,
        first,
        second: last,
        start,
        middle,
        end,
    })
}

fn plans_lent(first: &[u8], second: &[u8], start: usize, net: Network) -> Result<FinalRead, Refusal>
    requires { start ≤ 2252 }
    ensures { result ≡ final_read (plans_lent first.now second.now start net) }
{
    let links = net.links;
    let plan = read_plan_behind(start, first, links)?;
    let middle = start + first.len();
    second_lent(second, net, start, middle, plan)
}

// Files lent apart, each with rule 13 of its own: the network file first, then the first plan file, then the second. Never
// inlined either.
#[inline(never)]
pub fn read_files(network: &[u8], first: &[u8], second: &[u8]) -> Result<FinalRead, Refusal>
    ensures { result ≡ final_read (files_input network.now first.now second.now) }
{
    let net = read_network(network)?;
    let start = network.len();
    plans_lent(first, second, start, net)
}
