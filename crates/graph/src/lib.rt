// The room of the mathematics: feasible links and cheapest trees over numbered nodes. It has no code.
// A reader has to believe specs/ alone; proofs/Theorems.antt says what follows from it.

#![tactic(auto)]
