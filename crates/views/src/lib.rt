// Tables of reals, as C has them, seen as tables of corners and of boxes. The exports for the comparison
// with the Rust that change such a table lend it by these views to functions on corners and boxes: no real
// is copied, and nothing is allocated. No part of the product.
#![tactic(auto)]

pub mod boxes;
pub mod corners;
