// The history of a card and the claims about passes, defined and proved; no code.

#![tactic(auto)]
