// Texts that break each rule, and ones that do not, judged by computation. There is no code here.
#![tactic(auto)]
