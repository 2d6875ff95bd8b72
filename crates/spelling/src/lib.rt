// A serial session spells 01's own. It has no function: specs/ has the statement, and proofs/ the theorem.
#![tactic(auto)]
