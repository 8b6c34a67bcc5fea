// The starred cases of document 01: the table stands in specs/, and the one theorem on it in proofs/.
#![tactic(auto)]
