// The demands on the engine, stated over the definitions that the calls' contracts cite; no code.
#![tactic(auto)]
