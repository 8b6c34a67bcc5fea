// What the judge says of a submitted plan: document 01's marks, and their laws.
#![tactic(auto)]

ghost use Rattle.std.specs.Prelude.{◌≡◌};
ghost use Rattle.judge_marks.specs.Marks.{reason_number};

use network::refusal::Refusal;

// Why a step is bad.
#[derive(Clone, Copy)]
pub enum Reason {
    NotOperable,
    AlreadySo,
    Unsafe,
}

// The reason as document 01 numbers it.
impl From<Reason> for u8 {
    ghost from_gives = { λ reason n. n ≡ reason_number reason };

    fn from(reason: Reason) -> u8 {
        match reason {
            Reason::NotOperable => 1,
            Reason::AlreadySo => 2,
            Reason::Unsafe => 3,
        }
    }
}

// A bad step: its number, from 1 on, and the lowest reason that fits.
#[derive(Clone, Copy)]
pub struct BadStep {
    pub step: usize,
    pub reason: Reason,
}

// How a plan stands before the cheapest cost is known: what it costs, where its steps are good and leave nothing dark.
#[derive(Clone, Copy)]
pub enum Standing {
    Broken(BadStep),
    Short(usize),
    Complete(u64),
}

// What a valid plan costs, and how much of it is above the cheapest cost.
#[derive(Clone, Copy)]
pub struct Score {
    pub cost: u64,
    pub excess: u64,
}

#[derive(Clone, Copy)]
pub enum Mark {
    Broken(BadStep),
    Short(usize),
    Valid(Score),
    Refused(Refusal),
}

// The marks of two plans in one network, in file order.
#[derive(Clone, Copy)]
pub struct BothMarks {
    pub first: Mark,
    pub second: Mark,
}
