//! What is known of binary heaps in lists, and of lists read as finite maps. There is no code: other crates' proofs cite it.

#![tactic(auto)]
