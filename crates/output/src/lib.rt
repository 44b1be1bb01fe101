#![tactic(auto)]

// What is printed on a run file: definitions in specs/, their laws in proofs/. No code.
