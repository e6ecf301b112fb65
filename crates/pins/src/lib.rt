// Every claim once more, its statement written out; no code.

#![tactic(auto)]
