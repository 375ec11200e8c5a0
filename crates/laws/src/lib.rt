// Laws that more than one crate's proofs cite: they stand in specs/, and there is no code.
#![tactic(auto)]
