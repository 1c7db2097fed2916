//! What the layers of a bank hold of its log, and how each step of home, of the memory and of the clients keeps it.
//! There is no code here: `tl_bank` stands on these definitions and laws.
#![tactic(auto)]
