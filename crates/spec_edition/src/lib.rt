#![tactic(auto)]

// Definitions of the later edition only: see specs/.
