// The engine as pure functions has no code: everything is in specs/.
#![tactic(auto)]
