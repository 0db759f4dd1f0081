// Laws of the drivers' definitions, and no code: parts of a pyramid, levels and back, and what follows about the calls.

#![tactic(auto)]
