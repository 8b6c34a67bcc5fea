// The search that carries the parts of a configuration along: what it computes, and the laws by which no stop loses a set; no function.
#![tactic(auto)]
