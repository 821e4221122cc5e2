// The row layout and the listing: definitions in specs/, their laws in proofs/. There is no code here.
#![tactic(auto)]
