// What a cell is made of: definitions and laws alone, which intake, the lookups, the writers and the edit share.
#![tactic(auto)]
