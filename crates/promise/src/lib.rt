// What the public calls promise, in the words of the meaning: definitions and theorems only.
#![tactic(auto)]
