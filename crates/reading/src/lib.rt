// The reading rule and demand 3, as definitions and theorems: they stand in specs/, and there is no code.
#![tactic(auto)]
