// No code: the definitions and laws that every layer shares.
#![tactic(auto)]
