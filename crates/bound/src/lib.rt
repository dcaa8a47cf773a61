// How long a sheet is at the most: definitions and theorems. There is no code here.
#![tactic(auto)]
