// Document 01's figures, worked by hand, as one proved table. No code.

#![tactic(auto)]
