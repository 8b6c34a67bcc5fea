// The judge: from the bytes of a network file with a plan file directly behind it to the mark, and to its printed line.
#![tactic(auto)]

ghost use Rattle.std.specs.Prelude.{◌≡◌, length, take};
ghost use Rattle.texts.specs.Texts.{in_front, Counted};
ghost use Rattle.judge_line.specs.MarkLines.{mark_line};
ghost use Rattle.judge.specs.Judging.{JudgeReply, mark_for};

use feeding_acceptance::accept;
use file_both::read_network_and_plan;
use judge_line::mark_line;
use judge_marks::Mark;
use judge_score::marked;

// The mark of a network file with a plan file directly behind it: rules 1 to 13 and 20 over both files, then 14 to 18,
// then the plan.
pub fn mark_of(s: &[u8]) -> Mark
    ensures value { result ≡ mark_for s.now }
    ensures judge_reply { JudgeReply s.now (mark_line result) }
{
    match read_network_and_plan(s) {
        Err(refusal) => Mark::Refused(refusal),
        Ok(read) => match accept(read.net) {
            Err(refusal) => Mark::Refused(refusal),
            Ok(start) => marked(start, read.plan),
        },
    }
}

// The mark's line in the front of `out`, and its length; later bytes keep their values.
pub fn mark_text(s: &[u8], out: &mut [u8; 4096]) -> usize
    ensures value { result ≡ length (mark_line (mark_for s.now)) }
    ensures out_after { out.new ≡ in_front (mark_line (mark_for s.now)) out.old }
    ensures counted { Counted result out.new }
    ensures judge_reply { JudgeReply s.now (take result out.new) }
{
    let mark = mark_of(s);
    mark_line(mark, out)
}
