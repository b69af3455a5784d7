// The crash argument that every system shares. There is no code in it: specs/System.antt has the statement, proofs/Survives.antt the proof.
#![tactic(auto)]
