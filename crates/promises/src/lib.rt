// What a customer is promised, as theorems. There is no code here: what the theorems speak of is in
// specs/ of this crate and of those below, and the theorems in proofs/, named in
// proofs/Lib.antt. docs/PROMISES.md leads through them.
#![tactic(auto)]
