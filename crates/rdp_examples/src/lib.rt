// Document 01's examples, as statements about the definitions of the layers below (specs/Examples) that the prover computes (proofs/ExampleLaws). A crate
// of their own, since the computation takes seconds, which every must-fail edit of a layer would repeat. It has no code.
#![tactic(auto)]
