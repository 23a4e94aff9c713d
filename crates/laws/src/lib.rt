// Laws of the definition, for the proofs of the crates above: claims in specs/, proved. There is no code.

#![tactic(auto)]
