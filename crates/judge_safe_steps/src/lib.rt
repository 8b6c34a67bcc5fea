// Whether a safe configuration stays safe after a step, told by the parts that the step touches: definitions in specs/, laws in proofs/; no function.
#![tactic(auto)]

// What two parts are found to be that a closing would join.
#[derive(Clone, Copy)]
pub enum Joining {
    // they must not be joined: they are one part, both have a sound source, or one has a sound source and the other a faulty element
    Clash,
    // neither has a sound source: what is joined stays dark
    Dark,
    // one has this sound source, and the other neither a sound source nor a faulty element: the loads are left to ask
    FedBy(usize),
}
