// No code: the demands and what is proved of questions and of `why`, of the bytes that the public functions leave.
#![tactic(auto)]
