// Demand 3: what holds over any sequence of calls on a journal. A statement and its proof, and no code.
#![tactic(auto)]
