// One record: what stands at an offset, by rules 1 to 12 and 20, of which 5 to 12 and 20 are those of its fields.
#![tactic(auto)]

ghost use Rattle.std.specs.Prelude.{◌≡◌, ◌-◌, length, Err};
ghost use Rattle.file_fields.specs.Fields.{length_of};
ghost use Rattle.file_fields.specs.Views.{seen_in};
ghost use Rattle.file_records.specs.Records.{record_at, due_at};

use file_fields::{Seen, field_rules, word_at};
use file_stages::{Stage, next_stage};
use network::refusal::{Refusal, Rule};

// A record, with the stage that the table names after it.
#[derive(Clone, Copy)]
pub struct Record {
    pub kind: u16,
    pub length: u16,
    pub next: Stage,
}

// How many bytes of `s` stand from `at` on; none where `at` is past the end.
pub fn bytes_left(s: &[u8], at: usize) -> usize
    ensures { result ≡ length s.now - at }
{
    s.len().saturating_sub(at)
}

// The length of a kind's records; 0 for a number that is no kind. A kind is the number in the file, since `BreaksRule` speaks of it so.
fn length_of(kind: u16) -> u16
    ensures { result ≡ length_of kind }
{
    match kind {
        1 => 8,
        2 => 10,
        3 => 12,
        4 => 4,
        5 => 6,
        6 => 8,
        7 => 14,
        8 => 14,
        _ => 0,
    }
}

fn refused(rule: Rule, place: usize) -> Result<Record, Refusal>
    ensures { result ≡ Err (record { rule = rule; place = place }) }
{
    Err(Refusal { rule, place })
}

// The record at an offset: rules 1 to 4 in their order.
pub fn record_at(s: &[u8], at: usize, stage: Stage) -> Result<Record, Refusal>
    ensures { result ≡ record_at s.now at stage }
{
    let left = bytes_left(s, at);
    if left < 4 {
        return refused(Rule::RecordMissing, at);
    }
    let kind = word_at(s, at + 2);
    let Some(next) = next_stage(stage, kind) else {
        return refused(Rule::KindOutOfPlace, at);
    };
    let length = word_at(s, at);
    if length != length_of(kind) {
        return refused(Rule::WrongLength, at);
    }
    if left < length as usize {
        return refused(Rule::RecordCutOff, at);
    }
    Ok(Record { kind, length, next })
}

// The record due at an offset, by what was read before it: rules 1 to 12 and 20 in their order.
pub fn due_at(s: &[u8], at: usize, stage: Stage, seen: Seen) -> Result<Record, Refusal>
    ensures { result ≡ due_at s.now (seen_in seen.entry) at stage }
{
    let record = record_at(s, at, stage)?;
    // a match: tried with `map_err`, whose goal for this closure did not close
    match field_rules(s, at, record.kind, seen) {
        Ok(()) => Ok(record),
        Err(rule) => refused(rule, at),
    }
}
