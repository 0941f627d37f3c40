// Tables that say the same have one design, and so the same runs. Definitions and theorems; no code.
#![tactic(auto)]
