// A run of events over an auction: definitions and theorems. No code: the programs run by the functions of `auction`, `events`, `steps` and `fills`.

#![tactic(auto)]
