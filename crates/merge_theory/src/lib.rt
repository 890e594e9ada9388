// No code: the theory of the merge walk. Definitions are in specs/, theorems in proofs/Theorems.antt.
#![tactic(auto)]
