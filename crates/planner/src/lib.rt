// The planner: from the bytes of a network file to the reply, to its plan file, and to its printed lines.
#![tactic(auto)]

ghost use Rattle.std.specs.Prelude.{◌≡◌, length, take};
ghost use Rattle.texts.specs.Texts.{in_front, Counted};
ghost use Rattle.plan_outcome.specs.Outcomes.{outcome};
ghost use Rattle.file_writer.specs.Writing.{written, buffer_after};
ghost use Rattle.planner.specs.Replies.{PlannerReply, LibraryReply, reply_written, reply_for, buffer_for, lines_of};

use file_plan::plan::Plan;
use file_writer::write_plan;
use plan_answer::answer;
use plan_lines::{none_lines, plan_lines};
use plan_outcome::{Planned, Reply};
use texts::refused_line;

// A plan that was found, written to `buffer`: the reply, or rule 19 where its file does not fit.
fn written_reply(planned: Planned, plan: Plan, buffer: &mut [u8]) -> Reply
    ensures value { result ≡ reply_written planned (written plan buffer.old) }
    ensures buffer_after { buffer.new ≡ buffer_after plan buffer.old }
{
    match write_plan(plan, buffer) {
        Ok(_) => Reply::Plan(planned),
        Err(refusal) => Reply::Refused(refusal),
    }
}

// The reply to a network file; where there is a plan, its file in the front of `buffer`.
pub fn plan_into(s: &[u8], buffer: &mut [u8]) -> Reply
    ensures value { result ≡ reply_for (outcome s.now) buffer.old }
    ensures buffer_after { buffer.new ≡ buffer_for (outcome s.now) buffer.old }
    ensures library_reply { LibraryReply s.now buffer.old result buffer.new }
{
    let found = answer(s);
    let reply = found.reply;
    match reply {
        Reply::Plan(planned) => written_reply(planned, found.plan, buffer),
        Reply::NoPlan(_) => reply,
        Reply::Refused(_) => reply,
    }
}

// The printed lines for a network file in the front of `out`, and their length.
pub fn plan_text(s: &[u8], out: &mut [u8; 4096]) -> usize
    ensures value { result ≡ length (lines_of (outcome s.now)) }
    ensures out_after { out.new ≡ in_front (lines_of (outcome s.now)) out.old }
    ensures counted { Counted result out.new }
    ensures planner_reply { PlannerReply s.now (take result out.new) }
{
    let found = answer(s);
    let reply = found.reply;
    match reply {
        Reply::Plan(planned) => plan_lines(found.plan, planned.cost, planned.sums, out),
        Reply::NoPlan(sums) => none_lines(sums, out),
        Reply::Refused(refusal) => refused_line(refusal, out),
    }
}
