// What the demands come to in the engine's buffer, from the contracts of the calls: the laws stand in specs/, and there is no code.
#![tactic(auto)]
