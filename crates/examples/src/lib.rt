// The bays' examples and the tables worked out from the documents, in specs/, and that the rules give them. There is no code. They stand apart because an edit of a
// rule would work them out again.
#![tactic(auto)]
