#![tactic(auto)]

// How a register stands in lent storage.
