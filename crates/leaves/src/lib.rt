// The number, quad and equality leaves of CrystalFold: total functions, each equal to its definition in specs/.
#![tactic(auto)]

pub mod constant;
pub mod fixed;
pub mod float;
pub mod quad;
pub mod signed;
pub mod unsigned;
pub mod verdict;
