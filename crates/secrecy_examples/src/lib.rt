// Nothing seen in secret mode, by examples (document 02, P8): that the statement of the crate `secrecy` is not empty, and that each thing it asks is needed. There is
// no code. It stands apart because an edit of the statement would work these examples out again.
#![tactic(auto)]
