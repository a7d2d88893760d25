// The theorems about lists of calls, a file each in specs/: demand 3, streams (P1), packs as their messages (P6), which parameter a refusal names (P10); and their proofs. There is no code.
#![tactic(auto)]
