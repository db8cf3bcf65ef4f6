// No code: what a whole gathering gives, one segment call after the other.

#![tactic(auto)]
