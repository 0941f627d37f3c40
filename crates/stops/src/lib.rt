// What stopped boards change: they never help, and with the faulty ones they are never more than t. Definitions and theorems; no code.
#![tactic(auto)]
