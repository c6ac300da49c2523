// No code: that writing and reading an archive undo each other, that a changed byte is noticed, and when an archive is refused, proved over the definitions of `checksum`, `block` and `card`.
#![tactic(auto)]
