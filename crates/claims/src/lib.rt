// What the engine is claimed to do, stated in one place. It has no code: see specs/ for the claims and proofs/ for their proofs.
#![tactic(auto)]
