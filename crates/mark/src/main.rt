// Marks the plan file directly behind the network file on standard input, and prints the mark.
#![tactic(auto)]

fn main(rt: HostRuntime) {
    streams::reply(
        &mut rt.stdin(),
        &mut rt.stdout(),
        &mut rt.stderr(),
        b"mark",
        |input, out| judge::mark_text(input, out),
    );
}
