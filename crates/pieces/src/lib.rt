// No code: the pieces of ranges, and what their union is.
#![tactic(auto)]
