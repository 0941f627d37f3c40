// The agreement of the levels, message, counting and plain: definitions and theorems; there is no code here.
#![tactic(auto)]
