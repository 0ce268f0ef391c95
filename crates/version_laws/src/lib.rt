// That an old picture looks as it did: statements in specs/Claims.antt, proved in proofs/Claims.antt. There is no code here.
#![tactic(auto)]
