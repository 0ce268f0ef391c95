// Document 01's starred samples, as one claim over the definitions that the drawer's promises use.
#![tactic(auto)]
