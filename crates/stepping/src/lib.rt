// No code: what the stepping machine does, answers and leaves, and the theorems on it, stand in specs/.

#![tactic(auto)]
