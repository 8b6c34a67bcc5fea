// The planner's reply, the judge's mark and the marks of a final as the numbers of the C interface, for programs in other languages.
#![tactic(auto)]

ghost use Rattle.std.specs.Prelude.{◌≡◌, length};
ghost use Rattle.host_values.specs.Values.{reply_kind, reply_values, mark_kind, mark_values, marked_values, final_kind, final_values, values_in};

use final_better::Part;
use final_judge::Decided;
use judge_marks::{BothMarks, Mark};
use network::refusal::Refusal;
use plan_outcome::Reply;

pub fn reply_kind(reply: Reply) -> u64
    ensures { result ≡ reply_kind reply }
{
    match reply {
        Reply::Refused(_) => 0,
        Reply::Plan(_) => 1,
        Reply::NoPlan(_) => 2,
    }
}

pub fn reply_values(reply: Reply) -> [u64; 5]
    ensures { result ≡ reply_values reply }
{
    match reply {
        Reply::Refused(refusal) => {
            [u8::from(refusal.rule) as u64, refusal.place as u64, 0, 0, 0]
        }
        Reply::Plan(planned) => [
            planned.steps as u64,
            planned.cost,
            planned.sums.fed,
            planned.sums.dark,
            planned.sums.lost,
        ],
        Reply::NoPlan(sums) => [0, 0, sums.fed, sums.dark, sums.lost],
    }
}

pub fn mark_kind(mark: Mark) -> u64
    ensures { result ≡ mark_kind mark }
{
    match mark {
        Mark::Refused(_) => 0,
        Mark::Broken(_) => 1,
        Mark::Short(_) => 2,
        Mark::Valid(_) => 3,
    }
}

pub fn mark_values(mark: Mark) -> [u64; 2]
    ensures { result ≡ mark_values mark }
{
    match mark {
        Mark::Refused(refusal) => { [u8::from(refusal.rule) as u64, refusal.place as u64] }
        Mark::Broken(bad) => [bad.step as u64, u8::from(bad.reason) as u64],
        Mark::Short(element) => [element as u64, 0],
        Mark::Valid(score) => [score.cost, score.excess],
    }
}

// Both marks with their kinds, the better file, and where its step records stand.
fn marked_values(marks: BothMarks, part: Part) -> [u64; 9]
    ensures { result ≡ marked_values marks part }
{
    let first = marks.first;
    let second = marks.second;
    let one = mark_values(first);
    let other = mark_values(second);
    [
        mark_kind(first),
        one[0],
        one[1],
        mark_kind(second),
        other[0],
        other[1],
        u64::from(part.better),
        part.offset as u64,
        part.length as u64,
    ]
}

pub fn final_kind(decided: Result<Decided, Refusal>) -> u64
    ensures { result ≡ final_kind decided }
{
    match decided {
        Err(_) => 0,
        Ok(_) => 1,
    }
}

pub fn final_values(decided: Result<Decided, Refusal>) -> [u64; 9]
    ensures { result ≡ final_values decided }
{
    match decided {
        Err(refusal) => {
            [
                u8::from(refusal.rule) as u64,
                refusal.place as u64,
                0,
                0,
                0,
                0,
                0,
                0,
                0,
            ]
        }
        Ok(both) => marked_values(both.marks, both.part),
    }
}

// As many of the values as there is room for into the front of `lent`; how many there are in any case.
pub fn put_what_fits(values: &[u64], lent: &mut [u64]) -> usize
    ensures value { result ≡ length values.now }
    ensures lent_after { lent.new ≡ values_in values.now lent.old }
{
    let room = values.len().min(lent.len());
    lent[..room].copy_from_slice(&values[..room]);
    values.len()
}
