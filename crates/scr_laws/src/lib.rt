// What no single call on screen files states: statements in specs/Claims.antt, proved in proofs/Claims.antt. There is no code here.
#![tactic(auto)]
