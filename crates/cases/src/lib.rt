// The cases of document 01 that carry a star: see specs/Cases.antt.

#![tactic(auto)]
