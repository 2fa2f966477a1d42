// Demand 3 of the fills of an ended auction.

#![tactic(auto)]
