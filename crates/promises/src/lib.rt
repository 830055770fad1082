// Laws only: the product's properties, over the definitions and over the C functions (specs/).

#![tactic(auto)]
