// What holds of the addresses of a map's entries: statements in specs/Claims.antt, proved in proofs/Claims.antt. There is no code here.
#![tactic(auto)]
