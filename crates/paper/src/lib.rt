// The paper's transition systems, and configurations in words: definitions and their laws; there is no code here.
#![tactic(auto)]
