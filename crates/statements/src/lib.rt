// What the three properties speak of: see specs/.
#![tactic(auto)]
