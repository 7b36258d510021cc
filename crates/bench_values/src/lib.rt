// Cases P1 to P9, as one table of definitions over the outcomes of the calls; no code.
#![tactic(auto)]
