// Rows and sessions of calls, computed through the definitions of model. There is nothing to run.
#![tactic(auto)]
