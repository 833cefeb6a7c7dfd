// Cutting a log into records and feeding it by pieces, over any plan of a record. There is no code here: the definitions are in
// specs/, in the order Verdict, Plan, Walk, Slots, Account, Taken, Feed, Run, Prompt, Went, and the theorems in proofs/, named in proofs/Lib.antt.
#![tactic(auto)]
