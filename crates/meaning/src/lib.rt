// What plans, sets and listings mean stands in specs/, and what is shown of them in proofs/. There is no code here.
#![tactic(auto)]
