// Seniority: a line of a text. What it means, chain by chain, is in specs/.
#![tactic(auto)]

// Value `senior` is directly senior to value `junior`.
#[repr(C)]
#[derive(Clone, Copy, Default)]
pub struct Direct {
    pub senior: u32,
    pub junior: u32,
}
