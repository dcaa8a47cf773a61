// What lay answers and leaves in the lent sheet: definitions and theorems. There is no code here.
#![tactic(auto)]
