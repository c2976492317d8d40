#![tactic(auto)]

// No functions: demand 3 over the definitions of the crate model stands in proofs/.
