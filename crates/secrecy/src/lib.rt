// Laws only: the secrecy theorem over the definitions stands in specs/.

#![tactic(auto)]
