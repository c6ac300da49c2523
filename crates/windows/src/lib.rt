// No code: what the jobs of one task run in a window stands in specs/, and that it is at most the workload in proofs/.
#![tactic(auto)]
