// Accepted calls keep the standing check: theorems about the definitions. No code.
// Uses `machine` and what stands below it.

#![tactic(auto)]
