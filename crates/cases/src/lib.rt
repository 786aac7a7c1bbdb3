// No code: the tables to try of document 01, as one table of cases with one proved statement.
#![tactic(auto)]
