// From every standing table a schedule ends every operation: theorems about the definitions. No code.
// Uses `kept`, `machine` and what stands below them.

#![tactic(auto)]
