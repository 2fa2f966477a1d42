// What the user is promised of every tape: one page of statements, and their proofs. No code: the programs run by the functions of `listing` and those below it.

#![tactic(auto)]
