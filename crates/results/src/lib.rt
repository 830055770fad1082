// Laws only: which answers there are, and that refusals and stops leave the lent slices as they were. See specs/.

#![tactic(auto)]
