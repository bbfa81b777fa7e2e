// Tables of recipe texts with their answers as they stand in a record.
#![tactic(auto)]

#[cfg(test)]
mod recipes;
