// Nothing seen in secret mode (document 02, P8): a statement about lists of calls, in specs/, and its proof. There is no code: what is shown holds of every
// program that keeps the calls' promises. Its examples are the crate `secrecy_examples`.
#![tactic(auto)]
