// Which set of switches is operated: document 01's pick, its promise, and what a search over all sets computes; no function.
#![tactic(auto)]

// The cheapest set found: its cost, and the set as a number in which the first operable switch has the highest bit.
#[derive(Clone, Copy)]
pub struct Best {
    pub cost: u64,
    pub set: u64,
}

impl Best {
    // The bound from which a search starts, above the cost of any set; `cheapest_set` tells by an option whether a set was found.
    pub const NO_SET: u64 = 18446744073709551615;
}
