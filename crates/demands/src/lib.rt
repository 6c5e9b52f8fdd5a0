// No code: the customer's three demands, stated over the definitions that the code is proved to meet, and proved.
#![tactic(auto)]
