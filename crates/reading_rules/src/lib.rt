// How a line is read: document 01, "The line and its reading", as definitions with their laws. A line is a molecule or unreadable; the laws
// promise that what is shown reads back, piece by piece. Nothing here runs, and nothing here knows of tokens, chains or writers.
#![tactic(auto)]

mod molecule;
pub mod reading;
mod smiles;
mod words;
