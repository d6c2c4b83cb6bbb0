// What it means that one row of a table is below another: definitions and theorems, which the contracts of the crates above cite.
#![tactic(auto)]
