#![tactic(auto)]

// Definitions and laws over lists only: see specs/.
