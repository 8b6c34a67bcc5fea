// The fields of a record: the numbers in it, and rules 5 to 12 and 20 on those of each kind.
#![tactic(auto)]

ghost use Rattle.std.specs.Prelude.{◌≡◌, ◌+◌, ◌<◌, ◌≤◌, eqb, ltb, leb, length};
ghost use Rattle.network.specs.Refusals.{first_broken};
ghost use Rattle.network.specs.Accepted.{suits};
ghost use Rattle.file_fields.specs.Views.{seen_in};
ghost use Rattle.file_fields.specs.Fields.{word, wide_word, length_of, either, head_rules, flags_rules, plain_link_rules, link_rules, unknown_form, bad_guard, plan_head_rules, step_rules, field_rules};

use network::Network;
use network::refusal::Rule;

// What a record's rules may ask of what was read before it: how many elements and links the network has so far, and the links' forms.
#[derive(Clone, Copy)]
pub struct Seen<'a> {
    pub elements: usize,
    pub links: usize,
    pub form: &'a [u16],
}

// The number of two bytes at an offset, low byte first.
pub fn word_at(s: &[u8], at: usize) -> u16
    requires { at + 1 < length s.now }
    ensures { result ≡ word s.now at }
{
    let low = s[at] as u16;
    let high = s[at + 1] as u16;
    low + 256 * high
}

// The number of four bytes at an offset, low byte first.
pub fn wide_word_at(s: &[u8], at: usize) -> u32
    requires { at + 3 < length s.now }
    ensures { result ≡ wide_word s.now at }
{
    let low = word_at(s, at) as u32;
    let high = word_at(s, at + 2) as u32;
    low + 65536 * high
}

// E is 1 to 64, K is 0 to 96.
fn out_of_range(elements: usize, links: usize) -> bool
    ensures { result ≡ either (eqb elements 0) (either (ltb 64 elements) (ltb 96 links)) }
{
    elements == 0 || Network::MAX_ELEMENTS < elements || Network::MAX_LINKS < links
}

// Rule 5.
fn head_rules(s: &[u8], at: usize) -> Result<(), Rule>
    requires { at + 8 ≤ length s.now }
    ensures { result ≡ first_broken (head_rules s.now at) }
{
    let elements = word_at(s, at + 4) as usize;
    let links = word_at(s, at + 6) as usize;
    if out_of_range(elements, links) {
        return Err(Rule::HeadOutOfRange);
    }
    Ok(())
}

// Rule 6, of the flags at an offset.
fn flags_rules(s: &[u8], at: usize) -> Result<(), Rule>
    requires { at + 2 ≤ length s.now }
    ensures { result ≡ first_broken (flags_rules s.now at) }
{
    if 3 < word_at(s, at) {
        return Err(Rule::UnknownFlags);
    }
    Ok(())
}

// A fixed link costs 0, a switch at least 1.
fn cost_suits(form: u16, cost: u16) -> bool
    ensures { result ≡ suits form cost }
{
    (form == 0) == (cost == 0)
}

// An end of E or more, or two equal ends.
fn bad_ends(elements: usize, from: usize, to: usize) -> bool
    ensures { result ≡ either (leb elements from) (either (leb elements to) (eqb from to)) }
{
    elements <= from || elements <= to || from == to
}

// A form above 2; of a guarded switch also form 0.
fn unknown_form(kind: u16, form: u16) -> bool
    ensures { result ≡ unknown_form kind form }
{
    2 < form || (kind == 8 && form == 0)
}

// A guard that is no earlier link, or a fixed one.
fn bad_guard(seen: Seen, guard: usize) -> bool
    ensures { result ≡ bad_guard (seen_in seen.entry) guard }
{
    seen.links <= guard || seen.form.len() <= guard || seen.form[guard] == 0
}

// Rules 7 to 9.
fn link_rules(s: &[u8], at: usize, kind: u16, elements: usize) -> Result<(), Rule>
    requires { at + 12 ≤ length s.now }
    ensures { result ≡ first_broken (plain_link_rules s.now at kind elements) }
{
    let from = word_at(s, at + 4) as usize;
    let to = word_at(s, at + 6) as usize;
    if bad_ends(elements, from, to) {
        return Err(Rule::BadEnds);
    }
    let form = word_at(s, at + 8);
    if unknown_form(kind, form) {
        return Err(Rule::UnknownForm);
    }
    if !cost_suits(form, word_at(s, at + 10)) {
        return Err(Rule::UnsuitedCost);
    }
    Ok(())
}

// Rules 7 to 9, then rule 20, of a guarded switch.
fn guarded_link_rules(s: &[u8], at: usize, seen: Seen) -> Result<(), Rule>
    requires { at + 14 ≤ length s.now }
    ensures { result ≡ first_broken (link_rules s.now at 8 (seen_in seen.entry)) }
{
    link_rules(s, at, 8, seen.elements)?;
    let guard = word_at(s, at + 12) as usize;
    if bad_guard(seen, guard) {
        return Err(Rule::BadGuard);
    }
    Ok(())
}

// Rule 10.
fn plan_head_rules(s: &[u8], at: usize) -> Result<(), Rule>
    requires { at + 6 ≤ length s.now }
    ensures { result ≡ first_broken (plan_head_rules s.now at) }
{
    if 255 < word_at(s, at + 4) {
        return Err(Rule::TooManySteps);
    }
    Ok(())
}

// Rules 11 and 12.
fn step_rules(s: &[u8], at: usize, links: usize) -> Result<(), Rule>
    requires { at + 8 ≤ length s.now }
    ensures { result ≡ first_broken (step_rules s.now at links) }
{
    let link = word_at(s, at + 4) as usize;
    let state = word_at(s, at + 6) as usize;
    if links <= link {
        return Err(Rule::UnknownLink);
    }
    if 2 <= state {
        return Err(Rule::UnknownState);
    }
    Ok(())
}

// Rules 5 to 12 and 20, those that speak of a record of this kind: a number, as `field_rules` in specs/ has it.
pub fn field_rules(s: &[u8], at: usize, kind: u16, seen: Seen) -> Result<(), Rule>
    requires { at + length_of kind ≤ length s.now }
    ensures { result ≡ first_broken (field_rules s.now at kind (seen_in seen.entry)) }
{
    match kind {
        1 => head_rules(s, at),
        2 => flags_rules(s, at + 8),
        3 => link_rules(s, at, 3, seen.elements),
        5 => plan_head_rules(s, at),
        6 => step_rules(s, at, seen.links),
        7 => flags_rules(s, at + 12),
        8 => guarded_link_rules(s, at, seen),
        _ => Ok(()),
    }
}
