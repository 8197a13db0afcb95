// The worked cases T1 to T11 (§13.1), stated in specs/ about the definitions and proved in proofs/. There is no code here.
#![tactic(auto)]
