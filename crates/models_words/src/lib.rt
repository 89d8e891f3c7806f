// No code: the words of the stable models, and what is proved of them.
#![tactic(auto)]
