// The batch report's closed form is the session: statements and proofs alone.
#![tactic(auto)]
