// What goes before a launch from download: specs/ has the statement, and proofs/ its proof. It has no function.
#![tactic(auto)]
