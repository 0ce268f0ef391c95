// What a packing is: what it is for a map and definitions to draw a picture, the accepted packing, the answer, and the laws of
// demand 3 over these definitions. It has no code: the crates of the packer are proved against it.
#![tactic(auto)]
