// Joining two runs: its meaning stands in specs/, what is used of it in proofs/; the code is in the crate `joining`.
#![tactic(auto)]
