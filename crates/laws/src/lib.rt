// Laws of the definitions that several crates cite: see specs/.
#![tactic(auto)]
