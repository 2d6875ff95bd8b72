// Demand 3: every accepted load succeeds. specs/ has the statement, and proofs/ its proof. It has no function.
#![tactic(auto)]
