// Marks the two plan files directly behind the network file on standard input, and prints both marks.
#![tactic(auto)]

fn main(rt: HostRuntime) {
    streams::reply(
        &mut rt.stdin(),
        &mut rt.stdout(),
        &mut rt.stderr(),
        b"trial_final",
        |input, out| final_judge::final_text(input, out),
    );
}
