// No code: that reading and writing mean what they say, proved over the definitions of `line`, `listing` and `writing`.
#![tactic(auto)]
