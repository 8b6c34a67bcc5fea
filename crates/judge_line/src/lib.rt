// The judge's printed line, into a lent array.
#![tactic(auto)]

ghost use Rattle.std.specs.Prelude.{◌≡◌, ◌+◌, ◌≤◌, length};
ghost use Rattle.std.proofs.lemmas.List.Edits.{sets};
ghost use Rattle.texts.specs.Texts.{in_front};
ghost use Rattle.judge_line.specs.MarkLines.{mark_line};

use judge_marks::Mark;
use texts::{put_feed, put_field, put_line, put_refused, put_text};

// The mark's line at an offset, and the place behind it.
pub fn put_mark(out: &mut [u8], at: usize, mark: Mark) -> usize
    requires { at + 50 ≤ length out.old }
    ensures upper_bound { result ≤ at + 50 }
    ensures value { result ≡ at + length (mark_line mark) }
    ensures out_after { out.new ≡ sets out.old at (mark_line mark) }
{
    match mark {
        Mark::Broken(bad) => {
            let number = u8::from(bad.reason) as u64;
            put_line(out, at, b"BROKEN", bad.step as u64, number)
        }
        Mark::Short(element) => {
            let after = put_text(out, at, b"SHORT");
            let next = put_field(out, after, element as u64);
            put_feed(out, next)
        }
        Mark::Valid(score) => put_line(out, at, b"VALID", score.cost, score.excess),
        Mark::Refused(refusal) => put_refused(out, at, refusal),
    }
}

// The mark's line; later bytes keep their values.
pub fn mark_line(mark: Mark, out: &mut [u8; 4096]) -> usize
    ensures value { result ≡ length (mark_line mark) }
    ensures out_after { out.new ≡ in_front (mark_line mark) out.old }
{
    put_mark(out, 0, mark)
}
