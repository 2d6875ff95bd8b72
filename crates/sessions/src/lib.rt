// A host's whole sessions: specs/ has the statement, and proofs/ its proof. It has no function.
#![tactic(auto)]
