// One example for each reading of the writer: claims in specs/, by computation. There is no code.

#![tactic(auto)]
