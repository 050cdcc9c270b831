// What the blocks of a line are made of: document 01, "The line and its reading", parts between bytes, numerals and the names of variables,
// as definitions (specs/) with their laws (proofs/). Nothing here runs. `reading` passes these on.
