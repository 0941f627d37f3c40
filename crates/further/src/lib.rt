// The figures of searches, exchanged steps, stops, lists and receipts, apart from the others so that a wrong one is told sooner. No code.
#![tactic(auto)]
