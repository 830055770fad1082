// Laws only: what the compiler and the machine promise, in document 01's terms (specs/).

#![tactic(auto)]
