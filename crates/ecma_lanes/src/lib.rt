//! Lemmas of lanes: from the mask of a load of 16 or 32 bytes to the first of them that is of a class.
#![tactic(auto)]
