// Laws only: the words that the compiler writes are read back as the tree that was compiled.

#![tactic(auto)]
