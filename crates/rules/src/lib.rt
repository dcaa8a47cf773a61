// Rules 7 to 17 of docs/RULES.md: definitions and examples. There is no code here.
#![tactic(auto)]
