/// A record of a multi-day file, or what one is judged by: with its day.
#[derive(Clone, Copy)]
pub struct Dated<R, D> {
    pub undated: R,
    pub day: D,
}
