//! Iterations of DO loops as processes of the abstract machine of `interleaving`, and what the laws there say of them.
//!
//! The operators are those of accumulations, with what they give and begin with as `hyb_base` says.
#![tactic(auto)]

ghost use Rattle.f77_regions.specs.Iterations.{LoopsAreMachines, RegionsHold};

/// A law: the processes of a sound program, as a region of one of its loops knows them, are processes of a machine.
pub fn law_of_machines()
    ensures { LoopsAreMachines }
{}

/// A law: the laws on regions hold of the iterations of each loop of a sound program, and of blocks of them.
pub fn law_of_regions()
    ensures { RegionsHold }
{}
