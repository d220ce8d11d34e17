/// What the formula takes beside its charges.
#[derive(Clone, Copy)]
pub struct Beside {
    /// 3 × life + 2 × non-life + 2 × health of the earned premiums, in hundredths.
    pub premiums: u64,
    /// The same of the provisions.
    pub provisions: u64,
    /// The least capital.
    pub least: u32,
}
