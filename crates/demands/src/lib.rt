#![tactic(auto)]

// The customer's demands: statements in specs/, theorems in proofs/. No code.
