// The printed lines of a trial final: both marks in file order, or the one line of a refusal.
#![tactic(auto)]

ghost use Rattle.std.specs.Prelude.{◌≡◌, ◌+◌, ◌≤◌, length};
ghost use Rattle.std.proofs.lemmas.List.Edits.{sets};
ghost use Rattle.texts.specs.Texts.{in_front, Counted};
ghost use Rattle.final_lines.specs.FinalLines.{mark_lines, final_lines};

use judge_line::put_mark;
use judge_marks::BothMarks;
use network::refusal::Refusal;
use texts::refused_line;

// The lines of both marks at an offset, and the place behind them.
pub fn put_marks(out: &mut [u8], at: usize, marks: BothMarks) -> usize
    requires { at + 100 ≤ length out.old }
    ensures upper_bound { result ≤ at + 100 }
    ensures value { result ≡ at + length (mark_lines marks) }
    ensures out_after { out.new ≡ sets out.old at (mark_lines marks) }
{
    let first = marks.first;
    let second = marks.second;
    let next = put_mark(out, at, first);
    put_mark(out, next, second)
}

// The lines in the front of `out`, and their length; later bytes keep their values.
pub fn final_lines(marks: Result<BothMarks, Refusal>, out: &mut [u8; 4096]) -> usize
    ensures value { result ≡ length (final_lines marks) }
    ensures out_after { out.new ≡ in_front (final_lines marks) out.old }
    ensures counted { Counted result out.new }
{
    match marks {
        Err(refusal) => refused_line(refusal, out),
        Ok(marks) => put_marks(out, 0, marks),
    }
}
