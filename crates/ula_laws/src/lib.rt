// What holds of the ULA's addresses in every mode, and of the ink masks: statements in specs/Claims.antt, proved in proofs/Claims.antt.
// There is no code here.
#![tactic(auto)]
