// No code: the words that definitions are made of stand in specs/, and their laws in proofs/.
#![tactic(auto)]
