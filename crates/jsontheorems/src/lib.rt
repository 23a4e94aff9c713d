// What is shown of the promises of import; no code.

#![tactic(auto)]
