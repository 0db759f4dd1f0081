// Laws of a recording taken in pieces over any sequence of calls: however it is cut, its bands are those of one level. No code.

#![tactic(auto)]
