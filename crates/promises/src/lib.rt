// The promises as theorems from bytes, about the definitions of the entries. There is no code here: specs/ is all.
#![tactic(auto)]
