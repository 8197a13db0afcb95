// Definitions that promises of every layer cite, in specs/, and general laws, there and in proofs/. There is no code here.
#![tactic(auto)]
