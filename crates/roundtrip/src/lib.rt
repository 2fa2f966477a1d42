// What was written reads back, and what was read writes back: theorems about the records of a tape.

#![tactic(auto)]
