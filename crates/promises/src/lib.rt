// No code: the promises stand in specs/, and their proofs in proofs/.
#![tactic(auto)]
