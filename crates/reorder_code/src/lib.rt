#![tactic(auto)]

// Demand 3 for runs of the code: theorems only.
