// The room of proofs by hand: laws for a proof that goes through the steps of a function one by one, where the check does not. No function
// needs one today. It has no code, and nothing in it is about networks.

#![tactic(auto)]
