// The worked examples of document 01 and one of document 02, computed of the definitions. No code: `specs/` has the yards, `proofs/` the list.
#![tactic(auto)]
