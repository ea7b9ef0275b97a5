// A box in u and v, by its four ends. The layout is C's, so that the comparison with the Rust can lend
// tables of boxes.
#[repr(C)]
#[derive(Clone, Copy)]
pub struct Bounds {
    pub ulo: f64,
    pub uhi: f64,
    pub vlo: f64,
    pub vhi: f64,
}
