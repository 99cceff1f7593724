// No code: that the reader's machine (`parser`) does what the automaton of the grammar does stands in specs/.

#![tactic(auto)]
