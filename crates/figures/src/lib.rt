// Figures: what the definitions come to for inputs that were made by hand. Definitions and theorems; no code.
#![tactic(auto)]
