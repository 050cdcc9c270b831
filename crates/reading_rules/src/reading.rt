// How a line is read: document 01, "The line and its reading", as definitions (specs/) with their laws (proofs/): the blocks and the line
// whole here; its SMILES as `smiles`, what the blocks are made of as `words`, and what is said by a line as `molecule` has it. Nothing here
// runs yet. Other crates cite the definitions in their contracts and the laws in their proofs.
