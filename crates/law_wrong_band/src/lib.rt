// Laws of which band a refused call names: 2 says that the approximations are wrong, 17 that the details are. No code.

#![tactic(auto)]
