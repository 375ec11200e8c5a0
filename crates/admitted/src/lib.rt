// What holds of the tokens of a tree that the check admits: the laws stand in specs/, and there is no code.
#![tactic(auto)]
