// Laws only: a compiled procedure ends as its source ends (specs/).

#![tactic(auto)]
