// One example for each rule of the definition: claims in specs/, by computation. There is no code.

#![tactic(auto)]
