// Runs the judge of trial finals on the corpus of standard input and prints what each pair of plan files gets. An item of it is
// a network part, a byte for how many pairs follow, and these, two plan parts each; each part stands behind its length, two
// bytes, low byte first. The files may be damaged, cut off or empty; the three of a final have at most 8,192 bytes together.
//
// Printed is, pair by pair, the reply to one input, the three parts directly behind one another, and then the reply to the
// three parts lent apart: `REFUSED number place`, or both marks in file order and `PART better offset length`. `better` is 0 for
// the first file, 1 for the second, 2 for neither; `offset` counts from the front of the one input, or, lent apart, from the
// front of the better file, or of the first if neither is better. The exhaustive enumeration in bench/ wrote the corpus and
// the expected output (bench/src/finals/corpus.rs says what occurs in it), so that the gate holds the judge of finals to it.
#![tactic(auto)]

ghost use Rattle.std.specs.Prelude.{◌≤◌, length};

use std::io::Read;
use test_parts::{each_item, next_count, next_length, next_part};
use test_replies::{print_apart, print_final};

// The first plan file begins at `start`, the second at `middle`.
fn print_both<P: Print>(rt: &P, input: &[u8], start: usize, middle: usize)
    requires in_order { start ≤ middle }
    requires within { middle ≤ length input.now }
{
    print_final(rt, input);
    print_apart(rt, &input[..start], &input[start..middle], &input[middle..]);
}

// The pair that is next, behind a network part of the length given. Of a pair whose first part does not fit, the second part's length is read as well.
fn hold_pair<R: Read, P: Print>(from: &mut R, rt: &P, buffer: &mut [u8], length: usize) {
    let Some(middle) = next_part(from, buffer, length) else {
        let _ = next_length(from);
        return;
    };
    let Some(end) = next_part(from, buffer, middle) else {
        return;
    };
    print_both(rt, &buffer[..end], length, middle);
}

// The pairs behind the network part in front of the buffer.
fn hold_all<R: Read, P: Print>(from: &mut R, rt: &P, buffer: &mut [u8], length: usize) {
    let pairs = next_count(from);
    for _ in 0..pairs {
        hold_pair(from, rt, buffer, length);
    }
}

fn main(rt: HostRuntime) {
    let mut from = rt.stdin();
    each_item(
        &mut from,
        |from, buffer, length| hold_all(from, &rt, buffer, length),
    );
}
