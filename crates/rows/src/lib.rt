// Tables as lists of rows: definitions and laws, no code.
#![tactic(auto)]
