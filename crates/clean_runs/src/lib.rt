//! Clean runs over any grammar: definitions and lemmas of them, and of the canonical text of what they keep. An
//! abstract token has its places from its first byte, so that sameness is equality. The laws, in `specs/Laws.antt`,
//! speak of every grammar, and no contract can: `proofs/CanonicalLaws.antt` has them.
#![tactic(auto)]
