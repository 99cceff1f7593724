// No code: the theorems from a script's text to its runs, and on which texts are read, stand in specs/.

#![tactic(auto)]
