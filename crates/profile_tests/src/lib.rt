//! Tests of the public calls of `massif_cull`, `massif_file` and `dhat_json`, and of `Sampler` of `massif_sample` and `cell` of
//! `ms_print`, in a crate of their own: a crate that has tests is proved twice. Those of single lines of Massif files, and of all else
//! that stands on these, are runs of `commands_tests`.
#![tactic(auto)]

#[cfg(test)]
mod tests;
