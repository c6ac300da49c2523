// No code: what a schedule is stands in specs/, and what holds of every schedule in proofs/.
#![tactic(auto)]
