// Theorems about the definitions, and no code: document 01's example computed (specs/Example.antt), and pages worked by
// hand (specs/Pages.antt).

#![tactic(auto)]
