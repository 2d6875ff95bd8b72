// The conversation of host and chip without time: specs/ has its pulses and its statement, and proofs/ its proof. It has no function.
#![tactic(auto)]
