// What no single call on a lent record states: statements in specs/Claims.antt, proved in proofs/Claims.antt. There is no code here.
#![tactic(auto)]
