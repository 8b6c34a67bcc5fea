// The judge of a trial final: from a network file and two plan files, in one input or lent apart, to both marks, the better
// file and its part.
#![tactic(auto)]

ghost use Rattle.std.specs.Prelude.{◌≡◌, length, take};
ghost use Rattle.texts.specs.Texts.{in_front, Counted};
ghost use Rattle.feeding.specs.Acceptance.{answer_to};
ghost use Rattle.final_judge.specs.Finals.{FinalDecided, FilesDecided, FinalReply, FilesReply, ReadFormed, marked_final, final_accepted, marks_of, final_for, files_for, decided_lines};

use feeding_acceptance::accept;
use file_final::{FinalRead, read_files, read_final};
use final_better::{Part, better_of, part_in, part_of};
use final_lines::final_lines;
use judge_marks::BothMarks;
use judge_score::both_marked;
use network::refusal::Refusal;

// Both marks in file order, and the part of the better file.
#[derive(Clone, Copy)]
pub struct Decided {
    pub marks: BothMarks,
    pub part: Part,
}

// Both marks, and the part of the better file by its offset in that file.
fn marked_final(read: FinalRead, marks: BothMarks) -> Decided
    requires { ReadFormed read }
    ensures { result ≡ marked_final read marks }
{
    let a = marks.first;
    let b = marks.second;
    let better = better_of(a, b);
    let first = read.middle - read.start;
    let second = read.end - read.middle;
    let part = part_of(first, second, better);
    Decided { marks, part }
}

// By what was read: rules 14 to 18, then both marks. Never inlined, so that no stack of the judge's stands while the files are
// read.
#[inline(never)]
fn decide(read: FinalRead) -> Result<Decided, Refusal>
    requires { ReadFormed read }
    ensures { result ≡ final_accepted read (answer_to read.net) }
{
    let start = accept(read.net)?;
    let first = read.first;
    let second = read.second;
    let marks = both_marked(start, first, second);
    Ok(marked_final(read, marks))
}

// A network file with two plan files directly behind it; the part by its offset in the input.
pub fn final_of(s: &[u8]) -> Result<Decided, Refusal>
    ensures value { result ≡ final_for s.now }
    ensures final_decided { FinalDecided s.now result }
{
    let read = read_final(s)?;
    let own = decide(read)?;
    let marks = own.marks;
    let part = part_in(read.start, read.middle, own.part);
    Ok(Decided { marks, part })
}

// A network file and two plan files lent apart; the part by its offset in its own file.
pub fn final_of_files(network: &[u8], first: &[u8], second: &[u8]) -> Result<Decided, Refusal>
    ensures value { result ≡ files_for network.now first.now second.now }
    ensures files_decided { FilesDecided network.now first.now second.now result }
{
    let read = read_files(network, first, second)?;
    decide(read)
}

fn marks_of(decided: Result<Decided, Refusal>) -> Result<BothMarks, Refusal>
    ensures { result ≡ marks_of decided }
{
    let both = decided?;
    Ok(both.marks)
}

// The lines in the front of `out`, and their length; later bytes keep their values.
pub fn final_text(s: &[u8], out: &mut [u8; 4096]) -> usize
    ensures value { result ≡ length (decided_lines (final_for s.now)) }
    ensures out_after { out.new ≡ in_front (decided_lines (final_for s.now)) out.old }
    ensures counted { Counted result out.new }
    ensures final_reply { FinalReply s.now (take result out.new) }
{
    let decided = final_of(s);
    let marks = marks_of(decided);
    final_lines(marks, out)
}

// The same of files lent apart.
pub fn files_text(network: &[u8], first: &[u8], second: &[u8], out: &mut [u8; 4096]) -> usize
    ensures value { result ≡ length (decided_lines (files_for network.now first.now second.now)) }
    ensures out_after { out.new ≡ in_front (decided_lines (files_for network.now first.now second.now)) out.old }
    ensures counted { Counted result out.new }
    ensures files_reply { FilesReply network.now first.now second.now (take result out.new) }
{
    let decided = final_of_files(network, first, second);
    let marks = marks_of(decided);
    final_lines(marks, out)
}
