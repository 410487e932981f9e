// Damaged lines, one for each of the numbers 41 to 45 and one for each two of them, in every place. Theorems and no code: see specs/Table.antt.
#![tactic(auto)]
