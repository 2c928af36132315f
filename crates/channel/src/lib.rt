// The box and the host over a channel that loses, repeats and reorders: what they agree on whatever it does. A statement and its proof, and no code.
#![tactic(auto)]
