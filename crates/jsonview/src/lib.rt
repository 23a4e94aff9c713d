// What the file being written shows: its bodies as lists, and tables written into them. The definitions and laws are in specs/.

#![tactic(auto)]
