//! Where blocks differ.

/// A place at which a block is compared.
#[derive(Clone, Copy, Debug, PartialEq, Eq)]
pub enum Place {
    /// The part of this degree of the lead.
    Lead {
        degree: u32,
    },
    /// Of the factor with this number, counted from 1, the part of this degree of the coefficient
    /// of this power of Y.
    Factor {
        number: u32,
        power: u32,
        degree: u32,
    },
}
