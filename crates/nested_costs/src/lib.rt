// Short lists and long lists of one sheet: what their costs have to do with each other, as definitions and laws; no code.
#![tactic(auto)]
