// Tokens, and trees.
mod creates;
mod selects;
mod shown;
mod tokens;
mod trees;
