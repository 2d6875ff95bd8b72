// Demand 1 as a list of facts: when a call is refused, and what a refusal leaves. specs/ has the statement, and proofs/ its proof. It
// has no function.
#![tactic(auto)]
