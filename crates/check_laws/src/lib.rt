//! Laws on the rules of `check_rules` and on the fold that ties them: what the walk over each node is by the walks over
//! its parts (`proofs/Equations`), one turn more of each loop over a list of parts (`proofs/Loops`), and how a part is
//! written, as the fold knows it and as `check_forms` says it (`proofs/Written`). There is no code to run here.
#![tactic(auto)]
