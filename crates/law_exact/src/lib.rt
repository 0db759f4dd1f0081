// The exact case of the float 5/3 filter: laws alone, no function.

#![tactic(auto)]
