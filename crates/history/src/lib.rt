//! What is seen of a run: its history of events and its ending, and the input that it is given.
//! The meaning of a text and the machine that runs its image speak of these alone.
#![tactic(auto)]
