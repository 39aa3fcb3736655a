// 01's starred cases as one table, and the theorem that the definitions give every one. No code.
// Uses `machine` and what stands below it.

#![tactic(auto)]
