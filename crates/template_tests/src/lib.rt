//! Tests of templates: each form on both machines, and each refusal. What symbols the files have is told by `readelf -s`.
#![tactic(auto)]

#[cfg(test)]
mod files;
#[cfg(test)]
mod symbols;
#[cfg(test)]
mod templates;
