// What a cut leaves of a pyramid file, demand 3, the sections, the head and one sample, as laws about the calls, and no code.

#![tactic(auto)]
