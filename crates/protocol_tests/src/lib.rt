//! The tests of `block_tree`, `meta_format`, `scheme_text` and `plugin_core`.
#![tactic(auto)]

#[cfg(test)]
mod tests;
