// Laws of the answers of both engines and of the cover at every minimum; there is no code here.
#![tactic(auto)]
