// Plan files and trees of operators: reading, writing, and that they are each other's inverse. Definitions and theorems are in specs/.
#![tactic(auto)]
