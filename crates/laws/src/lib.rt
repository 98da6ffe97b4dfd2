#![tactic(auto)]

// Definitions and laws on tests, lists and parts of lists that every layer cites. It holds no code.
