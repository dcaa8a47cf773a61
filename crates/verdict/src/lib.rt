// The verdict of a text: definitions and theorems. There is no code here.
#![tactic(auto)]
