// The better of two submitted plan files by their marks, and its step records: a part of the lent bytes, and where it stands.
#![tactic(auto)]

ghost use Rattle.std.specs.Prelude.{◌≡◌, [], ◌+◌, ◌^◌, ◌<◌, take, drop};
ghost use Rattle.final_better.specs.Better.{better_of, second_or_neither, step_records, better_part, first_step, part_of, part_in, better_number};

use judge_marks::Mark;

// Which of two files is the better one.
#[derive(Clone, Copy, Debug, PartialEq, Eq)]
pub enum Better {
    First,
    Second,
    Neither,
}

// The number that hosts get.
impl From<Better> for u64 {
    ghost from_gives = { λ better n. n ≡ better_number better };

    fn from(better: Better) -> u64 {
        match better {
            Better::First => 0,
            Better::Second => 1,
            Better::Neither => 2,
        }
    }
}

// The better file, and where its step records stand; where neither is valid, the empty part at the first file's first step.
#[derive(Clone, Copy)]
pub struct Part {
    pub better: Better,
    pub offset: usize,
    pub length: usize,
}

// By the marks: VALID beats the rest, then the lower cost; an equal cost goes to the first file.
pub fn better_of(first: Mark, second: Mark) -> Better
    ensures { result ≡ better_of first second }
{
    match first {
        Mark::Valid(a) => match second {
            Mark::Valid(b) => {
                if b.cost < a.cost {
                    return Better::Second;
                }
                Better::First
            }
            _ => Better::First,
        },
        _ => second_or_neither(second),
    }
}

// Where the first file is not valid.
fn second_or_neither(second: Mark) -> Better
    ensures { result ≡ second_or_neither second }
{
    match second {
        Mark::Valid(_) => Better::Second,
        _ => Better::Neither,
    }
}

// Where the first step of a plan file of so many bytes stands; 0 where it has no room for a head.
fn first_step(bytes: usize) -> usize
    ensures { result ≡ first_step bytes }
{
    if bytes < 6 {
        return 0;
    }
    6
}

// The empty part at a plan file's first step.
fn no_records(file: &[u8]) -> &[u8]
    ensures { result.now ≡ [] }
{
    let at = first_step(file.len());
    &file[at..at]
}

// The step records of a plan file: what stands between its head and its end.
pub fn step_records(file: &[u8]) -> &[u8]
    ensures { result.now ≡ step_records file.now }
{
    let n = file.len();
    if n < 10 {
        return no_records(file);
    }
    &file[6..n - 4]
}

// The step records of the better file; the empty part of the first where neither is valid.
pub fn better_part<'a>(first: &'a [u8], second: &'a [u8], better: Better) -> &'a [u8]
    ensures { result.now ≡ better_part first.now second.now better }
{
    match better {
        Better::First => step_records(first),
        Better::Second => step_records(second),
        Better::Neither => no_records(first),
    }
}

// The bytes of a part of an input or file, as many of them as that has.
pub fn part_bytes(s: &[u8], part: Part) -> &[u8]
    ensures { result.now ≡ take part.length (drop part.offset s.now) }
{
    let offset = part.offset.min(s.len());
    let rest = &s[offset..];
    let length = part.length.min(rest.len());
    &rest[..length]
}

// The part of the better one of two files of so many bytes, by its offset in that file: an arm for each answer, as no two give the same.
pub fn part_of(first: usize, second: usize, better: Better) -> Part
    ensures { result ≡ part_of first second better }
{
    match better {
        Better::First => Part {
            better,
            offset: first_step(first),
            length: first.saturating_sub(10),
        },
        Better::Second => Part {
            better,
            offset: first_step(second),
            length: second.saturating_sub(10),
        },
        Better::Neither => Part {
            better,
            offset: first_step(first),
            length: 0,
        },
    }
}

// The same part by its offset in one input, in which the two files stand at `start` and `middle`.
pub fn part_in(start: usize, middle: usize, part: Part) -> Part
    requires offset_bound { start + part.offset < 2 ^ 64 }
    requires offset_bound_2 { middle + part.offset < 2 ^ 64 }
    ensures { result ≡ part_in start middle part }
{
    match part.better {
        Better::Second => Part {
            offset: middle + part.offset,
            ..part
        },
        _ => Part {
            offset: start + part.offset,
            ..part
        },
    }
}
