#![tactic(auto)]

// What a promise must be: the definition in specs/, its law in proofs/. No code.
