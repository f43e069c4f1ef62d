#![tactic(auto)]

// The calls, the three demands and the proved cases: see specs/, and there Front.antt first.
