// The rig's verdict as a definition (02, R-14), and the laws by which the code that runs a history is proved against it: no code.
#![tactic(auto)]
