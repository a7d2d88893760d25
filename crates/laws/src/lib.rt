// Laws of the rules, for what stands above them: what an item does not look at, where a cell is shown, which lines and marks move. There is no code.
#![tactic(auto)]
