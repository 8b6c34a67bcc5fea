// Plans the network file on standard input, and prints the reply.
#![tactic(auto)]

fn main(rt: HostRuntime) {
    streams::reply(
        &mut rt.stdin(),
        &mut rt.stdout(),
        &mut rt.stderr(),
        b"plan",
        |input, out| planner::plan_text(input, out),
    );
}
