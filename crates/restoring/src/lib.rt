// What a note restores: whether it fits, its slots put back, and two meshes compared.
#![tactic(auto)]

pub mod comparing;
pub mod fitting;
pub mod putting;
