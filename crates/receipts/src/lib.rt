// How many receipts and sends a run has had, and how many at most. Definitions and theorems; no code.
#![tactic(auto)]
