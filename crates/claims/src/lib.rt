// The page a customer reads first: what is claimed of the rules (docs/RULES.md). It has no code.
// specs/ says each claim in plain words and symbols, proofs/ proves it. README.md has the order in which to read.

#![tactic(auto)]
