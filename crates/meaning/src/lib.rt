// No code: what rows mean, and that the rules keep it.
#![tactic(auto)]
