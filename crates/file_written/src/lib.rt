// The network file as bytes, and that it is read back as the network that it was written for; no function.
#![tactic(auto)]
