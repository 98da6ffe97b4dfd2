#![tactic(auto)]

// Theorems about one call of the receiver, proved of the definition that the code is proved equal to. It holds no code.
