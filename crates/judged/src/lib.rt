// No code: inputs at a limit, or that could be refused in two ways, and which number is given, stated over the reader's definition.
#![tactic(auto)]
