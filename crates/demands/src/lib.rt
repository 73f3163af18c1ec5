// The demands on the whole, as statements: specs/ has the demands, proofs/ what is shown of them.
#![tactic(auto)]
