// What each call gives by the rules and what it promises, in specs/, and laws of it. There is no code.
#![tactic(auto)]
