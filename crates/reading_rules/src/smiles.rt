// How the SMILES of a line is read: document 01, "The line and its reading", its atoms, bonds and ring labels, as definitions (specs/) with
// their laws (proofs/). Nothing here runs. `reading` has the blocks and the line whole, and passes these on.
