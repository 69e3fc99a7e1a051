// The steps by which a function is walked by hand, over references to structs too, and the plain facts that a walk cites: proofs only.
#![tactic(auto)]
