#![tactic(auto)]

// Definitions of the stored table and theorems about it only: see specs/.
