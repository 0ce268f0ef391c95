// What holds of records that are moved there and back: statements in specs/Claims.antt, proved in proofs/Claims.antt. There is no code here.
#![tactic(auto)]
