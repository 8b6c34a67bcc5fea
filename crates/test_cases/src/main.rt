// Runs readers, writer, planner, judge and the judge of finals on the cases of standard input and prints what each gets. Standard input says how a case is written,
// and the expected output was derived by hand from documents 01 and 02.
#![tactic(auto)]

use file_plan::plan::Plan;
use network::Network;
use network::refusal::Refusal;
use plan_outcome::Reply;
use plan_sums::Sums;
use test_files::{number, put, put_times};
use test_replies::{field, print_apart, print_final, print_mark, print_plan, text};

// What runs on a case's bytes. Into has the length of the plan buffer, PlanFrom the plan file's place, and Write the length of the buffer.
#[derive(Clone, Copy)]
enum Run {
    Planner,
    Judge,
    Final,
    Cheapest,
    Network,
    Input,
    Entries,
    Into(usize),
    PlanFrom(usize),
    Write(usize),
}

fn show_bytes<P: Print>(rt: &P, bytes: &[u8]) {
    for &byte in bytes {
        field(rt, u64::from(byte));
    }
    text(rt, b"\n");
}

fn show_refusal<P: Print>(rt: &P, refused: Refusal) {
    text(rt, b"refused");
    let rule = refused.rule;
    field(rt, u64::from(u8::from(rule)));
    field(rt, refused.place as u64);
}

// The counts of elements, links and steps that a reader hands out.
fn show_counts<P: Print>(rt: &P, elements: usize, links: usize, steps: u8) {
    text(rt, b"accepted");
    field(rt, elements as u64);
    field(rt, links as u64);
    field(rt, u64::from(steps));
}

fn read_network<P: Print>(rt: &P, bytes: &[u8]) {
    match file_network::read_network(bytes) {
        Err(refused) => show_refusal(rt, refused),
        Ok(net) => show_counts(rt, net.elements, net.links, 0),
    }
    text(rt, b"\n");
}

fn read_input<P: Print>(rt: &P, bytes: &[u8]) {
    match file_both::read_network_and_plan(bytes) {
        Err(refused) => show_refusal(rt, refused),
        Ok(read) => show_counts(rt, read.net.elements, read.net.links, read.plan.steps),
    }
    text(rt, b"\n");
}

// A plan file from a place on, for a network of five links.
fn read_plan<P: Print>(rt: &P, bytes: &[u8], place: usize) {
    match file_plan::read_plan(bytes, place, 5) {
        Err(refused) => show_refusal(rt, refused),
        Ok(plan) => show_counts(rt, 0, 0, plan.steps),
    }
    text(rt, b"\n");
}

// Element 3 and link 3 as they are read, or of the empty network where they are refused.
fn entries<P: Print>(rt: &P, bytes: &[u8]) {
    let net = match file_both::read_network_and_plan(bytes) {
        Err(_) => Network::empty(),
        Ok(read) => read.net,
    };
    text(rt, b"entries");
    field(rt, u64::from(net.load[3]));
    field(rt, u64::from(net.capacity[3]));
    field(rt, u64::from(net.flags[3]));
    field(rt, u64::from(net.from[3]));
    field(rt, u64::from(net.to[3]));
    field(rt, u64::from(net.form[3]));
    field(rt, u64::from(net.cost[3]));
    field(rt, u64::from(net.guard[3]));
    text(rt, b"\n");
}

// The plan written into the first bytes of a buffer, and the whole buffer then.
fn write_into<P: Print>(rt: &P, plan: Plan, buffer: &mut [u8], length: usize) {
    if buffer.len() < length {
        return;
    }
    let written = file_writer::write_plan(plan, &mut buffer[0..length]);
    match written {
        Err(refused) => show_refusal(rt, refused),
        Ok(n) => {
            text(rt, b"written");
            field(rt, n as u64);
        }
    }
    text(rt, b":");
    show_bytes(rt, buffer);
}

// The plan that is read, or the empty plan where it is refused, written into the first bytes of a buffer of 20, all 7.
fn write<P: Print>(rt: &P, bytes: &[u8], length: usize) {
    let plan = match file_both::read_network_and_plan(bytes) {
        Err(_) => Plan::empty(),
        Ok(read) => read.plan,
    };
    let mut buffer: [u8; 20] = [7; 20];
    write_into(rt, plan, &mut buffer, length);
}

fn show_sums<P: Print>(rt: &P, sums: Sums) {
    field(rt, sums.fed);
    field(rt, sums.dark);
    field(rt, sums.lost);
}

fn show_reply<P: Print>(rt: &P, reply: Reply) {
    match reply {
        Reply::Plan(planned) => {
            text(rt, b"plan");
            field(rt, planned.steps as u64);
            field(rt, planned.cost);
            let sums = planned.sums;
            show_sums(rt, sums);
        }
        Reply::NoPlan(sums) => {
            text(rt, b"none");
            show_sums(rt, sums);
        }
        Reply::Refused(refused) => show_refusal(rt, refused),
    }
}

// The planner's reply, and what the buffer holds then.
fn plan_into<P: Print>(rt: &P, bytes: &[u8], buffer: &mut [u8]) {
    let reply = planner::plan_into(bytes, buffer);
    show_reply(rt, reply);
    text(rt, b":");
    show_bytes(rt, buffer);
}

// With a plan buffer of `length` bytes, all 9.
fn into<P: Print>(rt: &P, bytes: &[u8], length: usize) {
    let mut buffer: [u8; 24] = [9; 24];
    if 24 < length {
        return;
    }
    plan_into(rt, bytes, &mut buffer[0..length]);
}

fn cheapest<P: Print>(rt: &P, bytes: &[u8]) {
    let found = plan_least_cost::cheapest_in(bytes);
    match found {
        Ok(Some(cost)) => {
            text(rt, b"costs");
            field(rt, cost);
        }
        Ok(None) => text(rt, b"none"),
        Err(refused) => show_refusal(rt, refused),
    }
    text(rt, b"\n");
}

fn run_on<P: Print>(rt: &P, how: Run, bytes: &[u8]) {
    match how {
        Run::Planner => print_plan(rt, bytes),
        Run::Judge => print_mark(rt, bytes),
        Run::Final => print_final(rt, bytes),
        Run::Cheapest => cheapest(rt, bytes),
        Run::Network => read_network(rt, bytes),
        Run::Input => read_input(rt, bytes),
        Run::Entries => entries(rt, bytes),
        Run::Into(length) => into(rt, bytes, length),
        Run::PlanFrom(place) => read_plan(rt, bytes, place),
        Run::Write(length) => write(rt, bytes, length),
    }
}

// The case's label, and what the first bytes get.
fn run_front<P: Print>(rt: &P, label: &[u8], how: Run, bytes: &[u8], length: usize) {
    if bytes.len() < length {
        return;
    }
    text(rt, label);
    text(rt, b": ");
    run_on(rt, how, &bytes[0..length]);
}

// Three texts behind what stands in the buffer, the second of them several times.
fn run_behind<P: Print>(
    rt: &P,
    label: &[u8],
    how: Run,
    out: &mut [u8; 4096],
    at: usize,
    first: &[u8],
    again: &[u8],
    times: usize,
    last: &[u8],
) {
    let begun = put(out, at, first);
    let repeated = put_times(out, begun, again, times);
    let length = put(out, repeated, last);
    run_front(rt, label, how, out, length);
}

// The first place of a byte from a place on, or where the bytes end.
fn find(bytes: &[u8], from: usize, byte: u8) -> usize {
    for i in from..bytes.len() {
        if bytes[i] == byte {
            return i;
        }
    }
    bytes.len()
}

// Behind the first bytes, the text of a line that says what the name stands for.
fn put_meaning(out: &mut [u8; 4096], at: usize, line: &[u8], name: u8) -> usize {
    if line.len() < 2 {
        return at;
    }
    if line[0] != name {
        return at;
    }
    if line[1] != b'=' {
        return at;
    }
    put(out, at, &line[2..])
}

// What the input's lines say that a name stands for, and where it ends.
fn put_named(out: &mut [u8; 4096], input: &[u8], name: u8) -> usize {
    let mut to: usize = 0;
    let mut at: usize = 0;
    // `split` would hand on an empty line behind the last line feed
    while at < input.len() {
        let end = find(input, at, b'\n');
        if end < at {
            return to;
        }
        if input.len() < end {
            return to;
        }
        to = put_meaning(out, to, &input[at..end], name);
        at = end + 1;
    }
    to
}

// The network that the text's first sign stands for, and where it ends.
fn put_first(out: &mut [u8; 4096], input: &[u8], signs: &[u8]) -> usize {
    if signs.len() < 2 {
        return 0;
    }
    put_named(out, input, signs[1])
}

fn run_text<P: Print>(rt: &P, input: &[u8], label: &[u8], how: Run, signs: &[u8]) {
    let mut out = [0u8; 4096];
    let at = put_first(&mut out, input, signs);
    run_behind(rt, label, how, &mut out, at, signs, b"", 0, b"");
}

fn both<P: Print>(rt: &P, input: &[u8], label: &[u8], signs: &[u8]) {
    let slash = find(signs, 0, b'/');
    if signs.len() < slash {
        return;
    }
    run_text(rt, input, label, Run::Planner, &signs[0..slash]);
    run_text(rt, input, label, Run::Judge, signs);
}

fn again<P: Print>(rt: &P, input: &[u8], label: &[u8], signs: &[u8]) {
    let first = find(signs, 0, b'[');
    if signs.len() <= first {
        return;
    }
    let second = find(signs, first, b']');
    if second < first {
        return;
    }
    if signs.len() < second {
        return;
    }
    let mut out = [0u8; 4096];
    let at = put_first(&mut out, input, signs);
    run_behind(
        rt,
        label,
        Run::Judge,
        &mut out,
        at,
        &signs[0..first],
        &signs[first..second],
        122,
        &signs[second..],
    );
}

// The case's label, and what three files get that are lent apart: they end at `start`, `middle` and `end`.
fn run_apart<P: Print>(
    rt: &P,
    label: &[u8],
    bytes: &[u8],
    start: usize,
    middle: usize,
    end: usize,
) {
    if middle < start {
        return;
    }
    if end < middle {
        return;
    }
    if bytes.len() < end {
        return;
    }
    text(rt, label);
    text(rt, b": ");
    print_apart(
        rt,
        &bytes[0..start],
        &bytes[start..middle],
        &bytes[middle..end],
    );
}

// Three texts behind what stands in the buffer, each as a file of its own.
fn lend<P: Print>(
    rt: &P,
    label: &[u8],
    out: &mut [u8; 4096],
    at: usize,
    network: &[u8],
    first: &[u8],
    second: &[u8],
) {
    let start = put(out, at, network);
    let middle = put(out, start, first);
    let end = put(out, middle, second);
    run_apart(rt, label, out, start, middle, end);
}

// The text up to a slash, up to the next, and what follows.
fn apart<P: Print>(rt: &P, input: &[u8], label: &[u8], signs: &[u8], first: usize, second: usize) {
    if second < first {
        return;
    }
    if signs.len() < second {
        return;
    }
    let mut out = [0u8; 4096];
    let at = put_first(&mut out, input, signs);
    lend(
        rt,
        label,
        &mut out,
        at,
        &signs[0..first],
        &signs[first..second],
        &signs[second..],
    );
}

fn finals<P: Print>(rt: &P, input: &[u8], label: &[u8], signs: &[u8]) {
    let first = find(signs, 0, b'/');
    if signs.len() <= first {
        return;
    }
    run_text(rt, input, label, Run::Final, signs);
    apart(rt, input, label, signs, first, find(signs, first + 1, b'/'));
}

// A program that begins with a number, by what stands behind its dash.
fn run_numbered<P: Print>(rt: &P, input: &[u8], label: &[u8], program: &[u8], signs: &[u8]) {
    let n = number(program);
    let dash = find(program, 0, b'-');
    if program.len() < 2 {
        return;
    }
    if program.len() - 2 < dash {
        return;
    }
    match program[dash + 1] {
        b'b' => run_text(rt, input, label, Run::Into(n), signs),
        b'p' => run_text(rt, input, label, Run::PlanFrom(n), signs),
        b'w' => run_text(rt, input, label, Run::Write(n), signs),
        _ => {}
    }
}

// A case by its program's first letter.
fn run_case<P: Print>(rt: &P, input: &[u8], label: &[u8], program: &[u8], signs: &[u8]) {
    if program.len() < 1 {
        return;
    }
    match program[0] {
        b'p' => run_text(rt, input, label, Run::Planner, signs),
        b'j' => run_text(rt, input, label, Run::Judge, signs),
        b'b' => both(rt, input, label, signs),
        b'a' => again(rt, input, label, signs),
        b'f' => finals(rt, input, label, signs),
        b'c' => run_text(rt, input, label, Run::Cheapest, signs),
        b'n' => run_text(rt, input, label, Run::Network, signs),
        b'i' => run_text(rt, input, label, Run::Input, signs),
        b'e' => run_text(rt, input, label, Run::Entries, signs),
        _ => run_numbered(rt, input, label, program, signs),
    }
}

// A line by the places of the blanks before and after its program.
fn run_parts<P: Print>(rt: &P, input: &[u8], line: &[u8], before: usize, after: usize) {
    if line.len() < after {
        return;
    }
    if after <= before {
        return;
    }
    run_case(
        rt,
        input,
        &line[0..before],
        &line[before + 1..after],
        &line[after..],
    );
}

fn run_line<P: Print>(rt: &P, input: &[u8], line: &[u8]) {
    if number(line) == 0 {
        return;
    }
    let before = find(line, 0, b' ');
    if line.len() <= before {
        return;
    }
    run_parts(rt, input, line, before, find(line, before + 1, b' '));
}

fn run_lines<P: Print>(rt: &P, input: &[u8]) {
    let mut at: usize = 0;
    // `split` would hand on an empty line behind the last line feed
    while at < input.len() {
        let end = find(input, at, b'\n');
        if end < at {
            return;
        }
        if input.len() < end {
            return;
        }
        run_line(rt, input, &input[at..end]);
        at = end + 1;
    }
}

fn main(rt: HostRuntime) {
    let mut input = [0u8; 65536];
    let got = streams::read_full(&mut rt.stdin(), &mut input);
    run_lines(&rt, &input[..got]);
}
