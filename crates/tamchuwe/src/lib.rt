// What other programs link: planner, judge and the judge of finals, on byte slices and numbers.
#![tactic(auto)]

ghost use Rattle.std.specs.Prelude.{◌≡◌, length};
ghost use Rattle.plan_outcome.specs.Outcomes.{outcome};
ghost use Rattle.planner.specs.Replies.{PlannerReply, LibraryReply, reply_for, buffer_for, lines_of};
ghost use Rattle.judge.specs.Judging.{JudgeReply, mark_for};
ghost use Rattle.judge_line.specs.MarkLines.{mark_line};
ghost use Rattle.final_judge.specs.Finals.{FinalDecided, FilesDecided, FinalReply, FilesReply, final_for, files_for, decided_lines};
ghost use Rattle.host_values.specs.Values.{reply_kind, reply_values, mark_kind, mark_values, final_kind, final_values, values_in};
ghost use Rattle.host_texts.specs.Fitting.{text_in};

use final_judge::{files_text, final_of, final_of_files, final_text};
use host_texts::put_if_it_fits;
use host_values::{
    final_kind, final_values, mark_kind, mark_values, put_what_fits, reply_kind, reply_values,
};
use judge::{mark_of, mark_text};
use planner::{plan_into, plan_text};

// The planner: the kind of its reply, in the front of `values` as many of the reply's values as fit, and in `count` how many
// there are; where there is a plan, its file in the front of `buffer`.
#[unsafe(no_mangle)]
pub extern "C" fn tamchuwe_plan(
    network: &[u8],
    buffer: &mut [u8],
    values: &mut [u64],
    count: &mut usize,
) -> u64
    ensures value { result ≡ reply_kind (reply_for (outcome network.now) buffer.old) }
    ensures buffer_after { buffer.new ≡ buffer_for (outcome network.now) buffer.old }
    ensures values_after { values.new ≡ values_in (reply_values (reply_for (outcome network.now) buffer.old)) values.old }
    ensures count_after { count.new ≡ length (reply_values (reply_for (outcome network.now) buffer.old)) }
    ensures library_reply { LibraryReply network.now buffer.old (reply_for (outcome network.now) buffer.old) buffer.new }
{
    let reply = plan_into(network, buffer);
    let found = reply_values(reply);
    *count = put_what_fits(&found, values);
    reply_kind(reply)
}

// The judge: the kind of its mark, with the mark's values and their count as above.
#[unsafe(no_mangle)]
pub extern "C" fn tamchuwe_mark(input: &[u8], values: &mut [u64], count: &mut usize) -> u64
    ensures value { result ≡ mark_kind (mark_for input.now) }
    ensures values_after { values.new ≡ values_in (mark_values (mark_for input.now)) values.old }
    ensures count_after { count.new ≡ length (mark_values (mark_for input.now)) }
    ensures judge_reply { JudgeReply input.now (mark_line (mark_for input.now)) }
{
    let mark = mark_of(input);
    let found = mark_values(mark);
    *count = put_what_fits(&found, values);
    mark_kind(mark)
}

// The planner's lines in the front of `out`, where they fit, and their length.
#[unsafe(no_mangle)]
pub extern "C" fn tamchuwe_plan_text(network: &[u8], out: &mut [u8]) -> usize
    ensures value { result ≡ length (lines_of (outcome network.now)) }
    ensures out_after { out.new ≡ text_in (lines_of (outcome network.now)) out.old }
    ensures planner_reply { PlannerReply network.now (lines_of (outcome network.now)) }
{
    let mut text: [u8; 4096] = [0; 4096];
    let count = plan_text(network, &mut text);
    put_if_it_fits(&text[..count], out)
}

// The judge's line in the front of `out`, where it fits, and its length.
#[unsafe(no_mangle)]
pub extern "C" fn tamchuwe_mark_text(input: &[u8], out: &mut [u8]) -> usize
    ensures value { result ≡ length (mark_line (mark_for input.now)) }
    ensures out_after { out.new ≡ text_in (mark_line (mark_for input.now)) out.old }
    ensures judge_reply { JudgeReply input.now (mark_line (mark_for input.now)) }
{
    let mut text: [u8; 4096] = [0; 4096];
    let length = mark_text(input, &mut text);
    put_if_it_fits(&text[..length], out)
}

// A trial final in one input: whether it is marked, with its values and their count as above; the part by its offset in the input.
#[unsafe(no_mangle)]
pub extern "C" fn tamchuwe_final(input: &[u8], values: &mut [u64], count: &mut usize) -> u64
    ensures value { result ≡ final_kind (final_for input.now) }
    ensures values_after { values.new ≡ values_in (final_values (final_for input.now)) values.old }
    ensures count_after { count.new ≡ length (final_values (final_for input.now)) }
    ensures final_decided { FinalDecided input.now (final_for input.now) }
{
    let decided = final_of(input);
    let found = final_values(decided);
    *count = put_what_fits(&found, values);
    final_kind(decided)
}

// Its lines in the front of `out`, where they fit, and their length.
#[unsafe(no_mangle)]
pub extern "C" fn tamchuwe_final_text(input: &[u8], out: &mut [u8]) -> usize
    ensures value { result ≡ length (decided_lines (final_for input.now)) }
    ensures out_after { out.new ≡ text_in (decided_lines (final_for input.now)) out.old }
    ensures final_reply { FinalReply input.now (decided_lines (final_for input.now)) }
{
    let mut text: [u8; 4096] = [0; 4096];
    let written = final_text(input, &mut text);
    put_if_it_fits(&text[..written], out)
}

// A trial final of files lent apart: the same, and the part by its offset in its own file.
#[unsafe(no_mangle)]
pub extern "C" fn tamchuwe_final_apart(
    network: &[u8],
    first: &[u8],
    second: &[u8],
    values: &mut [u64],
    count: &mut usize,
) -> u64
    ensures value { result ≡ final_kind (files_for network.now first.now second.now) }
    ensures values_after { values.new ≡ values_in (final_values (files_for network.now first.now second.now)) values.old }
    ensures count_after { count.new ≡ length (final_values (files_for network.now first.now second.now)) }
    ensures files_decided { FilesDecided network.now first.now second.now (files_for network.now first.now second.now) }
{
    let decided = final_of_files(network, first, second);
    let found = final_values(decided);
    *count = put_what_fits(&found, values);
    final_kind(decided)
}

// Its lines in the front of `out`, where they fit, and their length.
#[unsafe(no_mangle)]
pub extern "C" fn tamchuwe_final_apart_text(
    network: &[u8],
    first: &[u8],
    second: &[u8],
    out: &mut [u8],
) -> usize
    ensures value { result ≡ length (decided_lines (files_for network.now first.now second.now)) }
    ensures out_after { out.new ≡ text_in (decided_lines (files_for network.now first.now second.now)) out.old }
    ensures files_reply { FilesReply network.now first.now second.now (decided_lines (files_for network.now first.now second.now)) }
{
    let mut text: [u8; 4096] = [0; 4096];
    let written = files_text(network, first, second, &mut text);
    put_if_it_fits(&text[..written], out)
}
