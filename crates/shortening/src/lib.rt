// No code: the rules that shorten conditions, what the two entries leave, and the theorems on them stand in specs/.

#![tactic(auto)]
