// No code: what the mender of tables with shared parts answers, and the theorems on it, stand in specs/.

#![tactic(auto)]
