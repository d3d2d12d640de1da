// What every layer's definitions share. It has no code: see specs/ for the definitions and proofs/ for their laws.
#![tactic(auto)]
