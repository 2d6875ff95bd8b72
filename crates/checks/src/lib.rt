// The worked checks that are proved, together as one table: specs/ has the table, and proofs/ its proof. It has no function.
#![tactic(auto)]
