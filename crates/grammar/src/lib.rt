// The theorems of specs/ tie the machine that reads JSON texts to RFC 8259's grammar. There is no code here.
#![tactic(auto)]
