#![tactic(auto)]

// The XML that is read has no code here: everything is in specs/.
