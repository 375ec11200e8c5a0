// What a tree writes, as a definition, and the laws that hold of every tree: they stand in specs/, and there is no code.
#![tactic(auto)]
