// Laws of the route book over any sequence of calls: it is a map from point numbers to files. No code.

#![tactic(auto)]
