// Shares of an amount, in turn or pro rata, and the fills written of them.

#![tactic(auto)]
