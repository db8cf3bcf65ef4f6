// No code: what a whole tunnel gives, whichever way it is cut and whatever is left out.

#![tactic(auto)]
