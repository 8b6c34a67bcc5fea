// Runs planner and judge on the corpus of standard input and prints what each gets. An item of it is a network part, a
// byte for how many plan parts follow, and these; each part stands behind its length, two bytes, low byte first. The
// planner gets the network part, the judge the network part with one of the plan parts behind it. The exhaustive
// enumeration in bench/ wrote the corpus and the expected output, so that the gate holds planner and judge to it.
#![tactic(auto)]

use std::io::Read;
use test_parts::{each_item, next_count, next_part};
use test_replies::{print_mark, print_plan};

// The judge's line for a network part of the length given and the plan part that is next.
fn judge_next<R: Read, P: Print>(from: &mut R, rt: &P, buffer: &mut [u8], length: usize) {
    let Some(end) = next_part(from, buffer, length) else {
        return;
    };
    print_mark(rt, &buffer[..end]);
}

// The planner's lines for the network part in front of the buffer, and the judge's for each plan part behind it.
fn print_item<R: Read, P: Print>(from: &mut R, rt: &P, buffer: &mut [u8], length: usize) {
    if let Some(network) = buffer.get(..length) {
        print_plan(rt, network);
    }
    let plans = next_count(from);
    for _ in 0..plans {
        judge_next(from, rt, buffer, length);
    }
}

fn main(rt: HostRuntime) {
    let mut from = rt.stdin();
    each_item(
        &mut from,
        |from, buffer, length| print_item(from, &rt, buffer, length),
    );
}
