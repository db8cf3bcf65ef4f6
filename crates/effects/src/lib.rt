// No code: what a segment's call and a run of calls come to.

#![tactic(auto)]
