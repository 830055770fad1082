// The machine's requests on lent bytes: each checks the image anew and works on a machine by value. Those that write cells give them back.
#![tactic(auto)]

pub mod cells; // load, clear, poke and peek, which need no more of the image than its arrays
pub mod calls; // call, which runs a procedure
pub mod previews; // preview, which runs it on a copy of the cells
pub mod bounds; // bound, which runs nothing
