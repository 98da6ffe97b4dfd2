#![tactic(auto)]

// The user's three demands, over runs of calls: see specs/ and proofs/. There is no code here.
