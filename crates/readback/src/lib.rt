// The room of a network that was found: what is known of a job that is answered with one, and the result block read back by its own
// header. It has no functions: definitions (specs/) and laws (proofs/) that the call, the text and the claims cite.

#![tactic(auto)]
