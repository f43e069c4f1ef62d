#![tactic(auto)]

// Definitions of the text of a file only: see specs/.
