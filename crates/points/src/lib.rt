// The points that document 01 marks with a star: a table in specs/Points.antt, and one statement that the prover computes. No code.
#![tactic(auto)]
