// The worked pieces of document 01 that are proved, as one statement: a theorem, in specs/. There is no code here.
#![tactic(auto)]
