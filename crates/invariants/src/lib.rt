// Theory alone: what the code's buffers hold of the definitions (specs/), which inner contracts cite and no public one
// does, and the laws of that (proofs/).
#![tactic(auto)]
