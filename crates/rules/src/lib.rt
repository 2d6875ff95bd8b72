// The chip on one page: specs/ has the rules that a chip's step keeps and that fix it, and proofs/ why they do. It has no function.
#![tactic(auto)]
