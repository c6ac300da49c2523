// No code: what becomes of a card's blocks and when it is refused, said a second way, and that a spoiled card gives its archive back, proved over the definitions of `salvaging`.
#![tactic(auto)]
