//! The staged machine: the machine that runs lists of ICODE ops. It has no places and no instructions of its own, and
//! stands between the lowering and the expansion: only their proofs use it. There is no code to run here.
#![tactic(auto)]
