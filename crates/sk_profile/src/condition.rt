//! How an argument of a call is compared.
/// How an argument of a call is compared: the operators of the OCI runtime specification.
#[derive(Clone, Copy, Debug, PartialEq, Eq)]
pub enum Test {
    /// SCMP_CMP_EQ
    Is,
    /// SCMP_CMP_NE
    IsNot,
    /// SCMP_CMP_LT
    Below,
    /// SCMP_CMP_LE
    AtMost,
    /// SCMP_CMP_GT
    Above,
    /// SCMP_CMP_GE
    AtLeast,
    /// SCMP_CMP_MASKED_EQ, with its mask
    Masked(u64),
}

/// One comparison of an argument, all 64 bits, unsigned.
#[derive(Clone, Copy, Debug, PartialEq, Eq)]
pub struct Condition {
    /// Which argument: 0 to 5.
    pub index: u8,
    /// How it is compared.
    pub test: Test,
    /// With which number.
    pub value: u64,
}
