// The refusals of documents 01 and 02: the rule that is broken, with its place.
ghost use Rattle.std.specs.Prelude.{◌≡◌};
ghost use Rattle.network.specs.Refusals.{rule_number};

// The rules by their numbers: document 01's, 1 to 19, then document 02's.
#[derive(Clone, Copy, Debug, PartialEq, Eq)]
pub enum Rule {
    RecordMissing,
    KindOutOfPlace,
    WrongLength,
    RecordCutOff,
    HeadOutOfRange,
    UnknownFlags,
    BadEnds,
    UnknownForm,
    UnsuitedCost,
    TooManySteps,
    UnknownLink,
    UnknownState,
    ByteAfterEnd,
    NotATree,
    TwoSources,
    FaultWithSource,
    Overloaded,
    TooManyOperable,
    BufferTooShort,
    BadGuard,
}

// What document 01 prints as `REFUSED number place`.
#[derive(Clone, Copy, Debug, PartialEq, Eq)]
pub struct Refusal {
    pub rule: Rule,
    pub place: usize,
}

impl From<Rule> for u8 {
    ghost from_gives = { λ rule n. n ≡ rule_number rule };

    fn from(rule: Rule) -> u8 {
        match rule {
            Rule::RecordMissing => 1,
            Rule::KindOutOfPlace => 2,
            Rule::WrongLength => 3,
            Rule::RecordCutOff => 4,
            Rule::HeadOutOfRange => 5,
            Rule::UnknownFlags => 6,
            Rule::BadEnds => 7,
            Rule::UnknownForm => 8,
            Rule::UnsuitedCost => 9,
            Rule::TooManySteps => 10,
            Rule::UnknownLink => 11,
            Rule::UnknownState => 12,
            Rule::ByteAfterEnd => 13,
            Rule::NotATree => 14,
            Rule::TwoSources => 15,
            Rule::FaultWithSource => 16,
            Rule::Overloaded => 17,
            Rule::TooManyOperable => 18,
            Rule::BufferTooShort => 19,
            Rule::BadGuard => 20,
        }
    }
}
