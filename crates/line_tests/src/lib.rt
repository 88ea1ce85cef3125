// Examples of the line and of reading, at the edges of what is refused.

#![tactic(auto)]

#[cfg(test)]
mod tests;
