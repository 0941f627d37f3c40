// Two steps of different boards, in either order. Definitions and theorems; no code.
#![tactic(auto)]
