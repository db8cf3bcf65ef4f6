// What the tunnel's writer gives, its reader gives back: definitions and proofs, and no code.

#![tactic(auto)]
