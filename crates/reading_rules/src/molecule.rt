// What a line says: document 01, "The line and its reading", the atoms, the set of bonds and what is noted of the atoms, as definitions
// (specs/) with their laws (proofs/). Nothing here runs. `reading` passes these on.
