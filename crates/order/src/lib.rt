// Demands 2 and 3 over runs: what steps do to bindings, how inserts end, and the order of operations. No code.
// Uses `kept`, `linear`, `machine` and what stands below them.

#![tactic(auto)]
