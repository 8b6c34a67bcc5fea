// What planner, judge and the judge of finals print, for the programs that hold them to expected output.
#![tactic(auto)]

use final_better::Part;
use final_judge::Decided;
use network::refusal::Refusal;

// Bytes on standard output. A failure is not told: what is missing shows where the output is compared with the expected one.
pub fn text<P: Print>(rt: &P, bytes: &[u8]) {
    let _ = rt.write_all(bytes);
}

// A blank and a number.
pub fn field<P: Print>(rt: &P, n: u64) {
    let _ = print!(rt; " {n}");
}

// The planner's lines for a network file.
pub fn print_plan<P: Print>(rt: &P, input: &[u8]) {
    let mut out = [0u8; 4096];
    let length = planner::plan_text(input, &mut out);
    text(rt, &out[..length]);
}

// The judge's line for a network file with a plan file behind it.
pub fn print_mark<P: Print>(rt: &P, input: &[u8]) {
    let mut out = [0u8; 4096];
    let length = judge::mark_text(input, &mut out);
    text(rt, &out[..length]);
}

fn print_part<P: Print>(rt: &P, part: Part) {
    text(rt, b"PART");
    field(rt, u64::from(part.better));
    field(rt, part.offset as u64);
    field(rt, part.length as u64);
    text(rt, b"\n");
}

// PART, the better file, and offset and length of its part; nothing where the final is refused.
fn print_decided<P: Print>(rt: &P, decided: Result<Decided, Refusal>) {
    match decided {
        Err(_) => {}
        Ok(both) => print_part(rt, both.part),
    }
}

// The lines for a network file with two plan files behind it, and the part, which the program `trial_final` does not print.
pub fn print_final<P: Print>(rt: &P, input: &[u8]) {
    let mut out = [0u8; 4096];
    let length = final_judge::final_text(input, &mut out);
    text(rt, &out[..length]);
    print_decided(rt, final_judge::final_of(input));
}

// The same of files lent apart, where the part's offset counts from the front of its own file.
pub fn print_apart<P: Print>(rt: &P, network: &[u8], first: &[u8], second: &[u8]) {
    let mut out = [0u8; 4096];
    let length = final_judge::files_text(network, first, second, &mut out);
    text(rt, &out[..length]);
    print_decided(rt, final_judge::final_of_files(network, first, second));
}
