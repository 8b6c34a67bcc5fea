// Document 01's definitions of feeding and of plans stand in specs/, and their laws in proofs/; the functions are in the crates above.
#![tactic(auto)]
