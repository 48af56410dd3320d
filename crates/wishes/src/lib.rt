// What is wished: the form, and which parts.

#![tactic(auto)]

#[derive(Clone, Copy)]
pub struct Wishes {
    pub tabs: bool,
    pub memory: bool,
    pub control: bool,
    pub queue: bool,
    pub recovery: bool,
}
